ghost use Rattle.std.specs.Prelude.{◌≡◌, IfSome, IfNone};
ghost use Rattle.moduli_sets.specs.Name.{set_named, word_of_name};

/// The sets that have a name.
#[derive(Clone, Copy, Debug, PartialEq, Eq)]
pub enum SetName {
    /// Information moduli 13 15, redundant moduli 16 17 19.
    Pocket,
    /// Information moduli 239 241 247 251 253, redundant moduli 255 256 257.
    Desk,
    /// Information moduli 32707 32713 32717 32719 32749, redundant moduli 32767 32768 32769.
    Hall,
}

impl SetName {
    /// The set that a word names. None exactly where the text is none of the names.
    pub fn named(text: &[u8]) -> Option<SetName>
        ensures found { IfSome result (λ name. text.now ≡ word_of_name name) }
        ensures value { result ≡ set_named text.now }
        ensures none { IfNone result ((name : SetName) → text.now ≡ word_of_name name → ⊥) }
    {
        match text {
            b"pocket" => Some(SetName::Pocket),
            b"desk" => Some(SetName::Desk),
            b"hall" => Some(SetName::Hall),
            _ => None,
        }
    }
}
