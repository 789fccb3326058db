/// An instruction of the machine, in the order of their numbers, 0 to 23.
///
/// R(x) is the integer in register x, W(n) that in data word n, and `line` the source line that a trap tells. An
/// instruction that neither jumps nor ends the run goes on with the next.
#[derive(Clone, Copy, Debug, PartialEq, Eq)]
pub enum Instr {
    /// HALT: end
    Halt,
    /// LDI: R(a) := value
    Ldi {
        a: u8,
        value: i128,
    },
    /// LD: R(a) := W(address)
    Ld {
        a: u8,
        address: u32,
    },
    /// ST: W(address) := R(a)
    St {
        a: u8,
        address: u32,
    },
    /// LDX: R(a) := W(address + R(b)); trap index unless 0 <= R(b) < length
    Ldx {
        a: u8,
        b: u8,
        address: u32,
        length: u32,
        line: u32,
    },
    /// STX: W(address + R(b)) := R(a); trap index unless 0 <= R(b) < length
    Stx {
        a: u8,
        b: u8,
        address: u32,
        length: u32,
        line: u32,
    },
    /// MOV: R(a) := R(b)
    Mov {
        a: u8,
        b: u8,
    },
    /// ADD: R(a) := R(b) + R(c)
    Add {
        a: u8,
        b: u8,
        c: u8,
    },
    /// SUB: R(a) := R(b) - R(c)
    Sub {
        a: u8,
        b: u8,
        c: u8,
    },
    /// MUL: R(a) := R(b) * R(c)
    Mul {
        a: u8,
        b: u8,
        c: u8,
    },
    /// NEG: R(a) := -R(b)
    Neg {
        a: u8,
        b: u8,
    },
    /// MAC: R(a) := R(b) * R(c) + R(a)
    Mac {
        a: u8,
        b: u8,
        c: u8,
    },
    /// DIV: R(a) := floor(R(b) / R(c)); trap zero where R(c) = 0
    Div {
        a: u8,
        b: u8,
        c: u8,
        line: u32,
    },
    /// MOD: R(a) := R(b) - R(c) * floor(R(b) / R(c)); trap zero where R(c) = 0
    Mod {
        a: u8,
        b: u8,
        c: u8,
        line: u32,
    },
    /// SCL: R(a) := floor(R(b) / m), where m is the modulus of the information channel
    Scl {
        a: u8,
        b: u8,
        channel: u32,
    },
    /// JMP: go to target
    Jmp {
        target: u32,
    },
    /// BLT: go to target where R(a) < R(b)
    Blt {
        a: u8,
        b: u8,
        target: u32,
    },
    /// BEQ: go to target where R(a) = R(b)
    Beq {
        a: u8,
        b: u8,
        target: u32,
    },
    /// CHK: trap range unless low <= R(a) <= high
    Chk {
        a: u8,
        low: i128,
        high: i128,
        line: u32,
    },
    /// IN: R(a) := the next input number; trap input-end where none is left, trap input-range unless it is in low..high
    In {
        a: u8,
        low: i128,
        high: i128,
        line: u32,
    },
    /// OUT: print R(a)
    Out {
        a: u8,
    },
    /// CALL: hold the next place, go to target; trap stack where 64 places are held
    Call {
        target: u32,
        line: u32,
    },
    /// RET: go to the place held last and drop it; trap stack where none is held
    Ret {
        line: u32,
    },
    /// TRP: trap of a kind: 0 zero, 1 range, 2 index, 3 input-end, 4 input-range, 5 turns, 6 stack
    Trp {
        kind: u32,
        line: u32,
    },
}
