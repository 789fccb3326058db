ghost use Rattle.machine_table.specs.Objects.{code_of, set_of_object, words_of};
ghost use Rattle.assembler.specs.Laws.{ListingsComeBack, ListingsSpell, RefusedAreNone, RefusedForOne, SpellsOne, SpellsOnly};
ghost use Rattle.assembler.specs.Listing.{listing};

use crate::writable::are_writable;
use machine_table::Object;

/// A text spells one program at the most.
pub fn texts_spell_one_program()
    ensures { SpellsOne }
{}

/// There is one reason at the most to refuse a text, apart from want of memory, and a text that is refused spells no
/// program without a fault.
pub fn refusals_have_one_reason()
    ensures one_reason { RefusedForOne }
    ensures refused { RefusedAreNone }
{}

/// The listing of a sound program spells that program and no other, and nothing but want of memory refuses it.
pub fn listings_come_back()
    ensures spell { ListingsSpell }
    ensures come_back { ListingsComeBack }
{}

/// The listing of an object spells that object and no other program, and nothing but want of memory refuses it.
pub fn listing_of_object_comes_back(object: &Object)
    ensures { SpellsOnly (listing (set_of_object object.now) (code_of object.now) (words_of object.now)) (set_of_object object.now) (code_of object.now) (words_of object.now) }
{
    object.rules();
    are_writable(object.code());
}
