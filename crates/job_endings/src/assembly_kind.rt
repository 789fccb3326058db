ghost use Rattle.std.specs.Prelude.{◌≡◌, ◌≤◌, ◌++◌, codes, length};
ghost use Rattle.std.specs.Fmt.{decimal};
ghost use Rattle.number_text.specs.Lines.{line};
ghost use Rattle.job_endings.specs.Refusals.{assembly_line};

use crate::object_kind::rule_text;
use machine_table::ObjectFault;
use number_text::Line;

/// Why a text is no assembly text of a program. Lines are numbered from 1.
#[derive(Clone, Copy, Debug, PartialEq, Eq)]
pub enum AssemblyKind {
    /// This line has no form of a line.
    BadLine(u32),
    /// A line before this one has the same label.
    TwiceNamed(u32),
    /// No line has the label that is the target of this one.
    UnknownName(u32),
    /// The program breaks a rule of programs, on this line.
    Unsound(ObjectFault, u32),
}

/// The line `refused assembly KIND N`.
pub(crate) fn assembly_line(kind: AssemblyKind) -> Line
    ensures { result ≡ line (assembly_line kind) }
{
    match kind {
        AssemblyKind::BadLine(n) => numbered_line(b"line ", n),
        AssemblyKind::TwiceNamed(n) => numbered_line(b"twice-named ", n),
        AssemblyKind::UnknownName(n) => numbered_line(b"unknown-name ", n),
        AssemblyKind::Unsound(fault, n) => Line::of(b"refused assembly unsound ")
            .text(rule_text(fault))
            .count(u64::from(n))
            .end(),
    }
}

/// The line `refused assembly TEXT` with a number after the text.
fn numbered_line(text: &[u8], n: u32) -> Line
    requires { length text.now ≤ 20 }
    ensures { result ≡ line (codes "refused assembly " ++ text.now ++ decimal n) }
{
    Line::of(b"refused assembly ")
        .text(text)
        .count(u64::from(n))
        .end()
}
