// The control commands by name: the queries of document 02, M-100, and document 01's table. Their numbers: specs/Verb.antt.
ghost use Rattle.std.specs.Prelude.{◌≡◌};
ghost use Rattle.rules.specs.Verb.{verb_number, verb_of};

use tables::refusal::Refusal;

#[derive(Clone, Copy, PartialEq, Eq, Debug)]
pub enum Verb {
    QueryDevice = 0,
    QueryPort = 1,
    CreateCq = 2,
    DestroyCq = 3,
    CreatePd = 4,
    DestroyPd = 5,
    RegisterMr = 7,
    DeregisterMr = 8,
    CreateQp = 9,
    ModifyQp = 10,
    DestroyQp = 12,
}

impl From<Verb> for u8 {
    ghost from_gives = { λ v n. n ≡ verb_number v };

    fn from(verb: Verb) -> u8 {
        verb as u8
    }
}

#[tactic(auto, unfolding(crate::specs::Verb::verb_in))]
impl TryFrom<u8> for Verb {
    type Error = Refusal;

    ghost try_from_gives = { λ n r. r ≡ verb_of n };

    fn try_from(number: u8) -> Result<Verb, Refusal> {
        match number {
            0 => Ok(Verb::QueryDevice),
            1 => Ok(Verb::QueryPort),
            2 => Ok(Verb::CreateCq),
            3 => Ok(Verb::DestroyCq),
            4 => Ok(Verb::CreatePd),
            5 => Ok(Verb::DestroyPd),
            7 => Ok(Verb::RegisterMr),
            8 => Ok(Verb::DeregisterMr),
            9 => Ok(Verb::CreateQp),
            10 => Ok(Verb::ModifyQp),
            12 => Ok(Verb::DestroyQp),
            6 | 11 | 13..=255 => Err(Refusal::Unknown),
        }
    }
}
