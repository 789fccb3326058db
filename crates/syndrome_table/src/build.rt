ghost use Rattle.std.specs.Prelude.{◌≡◌, pos};
ghost use Rattle.moduli_sets.specs.Moduli.{set_of};
ghost use Rattle.moduli_sets.specs.Set.{information_product};
ghost use Rattle.syndrome_table.specs.Filling.{AreCofactors};

use mixed_radix::Chosen;
use moduli_sets::Moduli;
use redundant_decoder::product_of;

/// M, how many integers the information moduli tell apart.
pub fn information_product_of(set: &Moduli) -> i128
    ensures { result ≡ pos (information_product (set_of set.now)) }
{
    set.rules();
    product_of(set, &Chosen::info(set)) as i128
}

/// M without the modulus of each information channel.
pub fn cofactors_of(set: &Moduli, product: i128) -> [i128; 12]
    requires { product ≡ pos (information_product (set_of set.now)) }
    ensures { AreCofactors (set_of set.now) result }
{
    set.rules();
    let mut cofactors = [0; 12];
    for i in 0..set.info() {
        cofactors[i] = product / i128::from(set.modulus(i));
    }
    cofactors
}
