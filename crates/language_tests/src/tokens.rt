ghost use Rattle.std.specs.Prelude.{◌≤◌, length};

use source_lexer::{LexFault, TokenKind, tokens};
use std::alloc::Global;
use std::test::Fail;

fn kinds(alloc: Global, text: &[u8]) -> Result<Vec<TokenKind>, LexFault>
    requires { length text.now ≤ 4294967294 }
{
    let mut kinds = Vec::new(alloc);
    for token in tokens(alloc, text)? {
        kinds.push(token.kind)?;
    }
    Ok(kinds)
}

fn fault(alloc: Global, text: &[u8]) -> Option<LexFault>
    requires { length text.now ≤ 4294967294 }
{
    tokens(alloc, text).err()
}

#[test]
fn the_longest_token_is_taken(rt: HostRuntime) -> Result<(), Fail> {
    use TokenKind::*;
    let range = kinds(rt.alloc(), b"0..9")?;
    assert_eq!(rt; range.as_slice(), [Number, Dots, Number].as_slice());
    let symbols = kinds(rt.alloc(), b"<><=>=..:=< =")?;
    let all = [
        NotEqual,
        LessEqual,
        GreaterEqual,
        Dots,
        Becomes,
        Less,
        Equal,
    ];
    assert_eq!(rt; symbols.as_slice(), all.as_slice());
    let words = kinds(rt.alloc(), b"var variable Var x_1 0<1then")?;
    let all = [Var, Name, Name, Name, Number, Less, Number, Then];
    assert_eq!(rt; words.as_slice(), all.as_slice());
    Ok(())
}

#[test]
fn places_and_lines(rt: HostRuntime) -> Result<(), Fail> {
    let text = b"# a := b\r\n\n x:=4;#c";
    let found = tokens(rt.alloc(), text)?;
    assert_eq!(rt; found.len(), 4);
    let becomes = found[1];
    assert_eq!(rt; (becomes.start, becomes.end, becomes.line), (13, 15, 3));
    Ok(())
}

#[test]
fn the_first_fault_is_reported(rt: HostRuntime) {
    assert_eq!(rt; fault(rt.alloc(), b"0...5"), Some(LexFault::BadByte(1)));
    assert_eq!(rt; fault(rt.alloc(), b"\n\x0c"), Some(LexFault::BadByte(2)));
    assert_eq!(rt; fault(rt.alloc(), b"a\xff\n."), Some(LexFault::BadByte(1)));
    assert_eq!(rt; fault(rt.alloc(), b"_"), Some(LexFault::BadByte(1)));
}

#[test]
fn numbers_have_a_limit(rt: HostRuntime) {
    let greatest = fault(rt.alloc(), b"000170141183460469231731687303715884105727");
    assert_eq!(rt; greatest, None);
    let above = fault(
        rt.alloc(),
        b"# 1\n170141183460469231731687303715884105728 ?",
    );
    assert_eq!(rt; above, Some(LexFault::LongLiteral(2)));
}
