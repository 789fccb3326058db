ghost use Rattle.std.specs.Prelude.{◌≡◌, ◌<◌, is_some};

use crate::Next;
use channel_alu::{MicroOp, Place};
use moduli_sets::residue_of;

/// Where a plan of a scaling stands.
#[derive(Clone, Copy, Debug)]
pub enum Scale {
    /// show R(b)
    Shows,
    /// R(b) is told: R(a) := R(b) / the modulus
    Divides,
    /// nothing
    Ends,
}

/// The plan of an SCL under way.
#[derive(Debug, Drop)]
pub struct Scaling {
    /// the registers of the result and of what is scaled
    pub a: u8,
    pub b: u8,
    /// the channel by whose modulus it is divided, and that modulus
    pub channel: u8,
    pub modulus: u32,
    pub scale: Scale,
    ghost positive: { 0 < modulus },
}

impl Scaling {
    ghost use Rattle.micro_plan.specs.declared.plan.Course.TheVariants as course;
    ghost use Rattle.micro_plan.specs.declared.plan_scaling.Scale.TheVariants.{Shows};
    ghost use Rattle.micro_plan.specs.Stages.{Proceeds, scaling_left, unscale_of, is_told, scale_most};

    /// The plan of R(b) divided by the modulus of a channel, which R(a) becomes.
    pub fn of(a: u8, b: u8, channel: u8, modulus: u32) -> Scaling
        requires { 0 < modulus }
        ensures a { result.a ≡ a }
        ensures b { result.b ≡ b }
        ensures channel { result.channel ≡ channel }
        ensures modulus { result.modulus ≡ modulus }
        ensures scale { result.scale ≡ Shows }
    {
        Scaling {
            a,
            b,
            channel,
            modulus,
            scale: Scale::Shows,
        }
    }

    /// What comes next, by what was told.
    pub fn next(&mut self, told: Option<i128>) -> Next
        requires { is_some told ≡ is_told self.old.scale }
        ensures { Proceeds (scaling_left self.old told) (scale_most self.old.scale)
            (course.Scaling self.old) result (course.Scaling self.new) }
    {
        match (self.scale, told) {
            (Scale::Shows, None) => {
                self.scale = Scale::Divides;
                Next::Await(Place::Reg(self.b))
            }
            (Scale::Divides, Some(x)) => {
                let op = self.unscale(x);
                self.scale = Scale::Ends;
                Next::Issue(op)
            }
            (Scale::Ends, None) => Next::Done,
            _ => unreachable!(),
        }
    }

    /// The division of x, by its residue and that of its floor quotient.
    fn unscale(&self, x: i128) -> MicroOp
        ensures { result ≡ unscale_of self.now x }
    {
        MicroOp::Unscale {
            to: Place::Reg(self.a),
            from: Place::Reg(self.b),
            channel: self.channel,
            take: residue_of(x, self.modulus),
            give: residue_of(x.div_euclid(i128::from(self.modulus)), self.modulus),
        }
    }
}
