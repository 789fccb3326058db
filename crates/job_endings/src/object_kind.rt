ghost use Rattle.std.specs.Prelude.{◌≡◌, ◌≤◌, ◌++◌, codes, length};
ghost use Rattle.std.specs.Fmt.{decimal};
ghost use Rattle.number_text.specs.Lines.{line};
ghost use Rattle.job_endings.specs.Refusals.{number_in, object_line, rule_text};

use machine_table::ObjectFault;
use number_text::Line;

/// Why the bytes of a file are no object. Places are numbered from 0.
#[derive(Clone, Copy, Debug, PartialEq, Eq)]
pub enum ObjectKind {
    /// There are only so many bytes, fewer than there must be.
    Short(usize),
    /// They don't begin as objects do.
    Magic,
    /// There is no such version.
    Version(u8),
    /// No set has this number.
    Set(u8),
    /// There are so many bytes too many.
    Long(usize),
    /// At this place stands what may not stand there.
    Record(usize),
    /// The program breaks a rule of programs.
    Unsound(ObjectFault),
}

/// The line `refused object KIND`, with what is told of the kind.
pub(crate) fn object_line(kind: ObjectKind) -> Line
    ensures { result ≡ line (object_line kind) }
{
    match kind {
        ObjectKind::Short(length) => numbered_line(b"short ", length as u64),
        ObjectKind::Magic => Line::of(b"refused object magic").end(),
        ObjectKind::Version(version) => numbered_line(b"version ", u64::from(version)),
        ObjectKind::Set(set) => numbered_line(b"set ", u64::from(set)),
        ObjectKind::Long(surplus) => numbered_line(b"long ", surplus as u64),
        ObjectKind::Record(place) => numbered_line(b"record ", place as u64),
        ObjectKind::Unsound(fault) => unsound_line(fault),
    }
}

/// The line `refused object unsound FAULT N`.
fn unsound_line(fault: ObjectFault) -> Line
    ensures { result ≡ line (codes "refused object unsound " ++ rule_text fault ++ decimal (number_in fault)) }
{
    Line::of(b"refused object unsound ")
        .text(rule_text(fault))
        .count(u64::from(number_in(fault)))
        .end()
}

/// The rule that a program breaks, as it is printed.
pub(crate) fn rule_text(fault: ObjectFault) -> &'static [u8]
    ensures value { result.now ≡ rule_text fault }
    ensures short { length result.now ≤ 20 }
{
    match fault {
        ObjectFault::TooMuchCode => b"code ",
        ObjectFault::TooMuchData => b"data ",
        ObjectFault::BadRegister(_) => b"register ",
        ObjectFault::BadTarget(_) => b"target ",
        ObjectFault::BadAddress(_) => b"address ",
        ObjectFault::BadConstant(_) => b"constant ",
        ObjectFault::BadDatum(_) => b"datum ",
    }
}

/// The number of the instruction or data word that breaks a rule of programs, and 0 where there are too many.
fn number_in(fault: ObjectFault) -> u32
    ensures { result ≡ number_in fault }
{
    match fault {
        ObjectFault::TooMuchCode | ObjectFault::TooMuchData => 0,
        ObjectFault::BadRegister(n)
        | ObjectFault::BadTarget(n)
        | ObjectFault::BadAddress(n)
        | ObjectFault::BadConstant(n)
        | ObjectFault::BadDatum(n) => n,
    }
}

/// The line `refused object TEXT` with a number after the text.
fn numbered_line(text: &[u8], n: u64) -> Line
    requires { length text.now ≤ 20 }
    ensures { result ≡ line (codes "refused object " ++ text.now ++ decimal n) }
{
    Line::of(b"refused object ").text(text).count(n).end()
}
