ghost use Rattle.std.specs.Prelude.{◌≡◌};
ghost use Rattle.range_inference.specs.Table.{range_in};

use name_table::NameTable;
use source_tree::Range;

/// The range of a name that stands for no integer: there is none in it.
pub const EMPTY: Range = Range { low: 1, high: 0 };

/// The range of a name, or the empty one.
pub fn range_of(table: &NameTable<Range>, name: &[u8]) -> Range
    ensures { result ≡ range_in table.now name.now }
{
    match table.get(name) {
        Some(range) => *range,
        None => EMPTY,
    }
}
