// The kinds of records.
ghost use Rattle.std.specs.Prelude.{◌≡◌};
ghost use Rattle.records.specs.Kinds.{kind_of};

use refusals::Refusal;

#[derive(Clone, Copy, Debug, PartialEq, Eq)]
pub enum Kind {
    Axis = 1,
    Value = 2,
    End = 3,
}

impl TryFrom<u8> for Kind {
    type Error = Refusal;

    ghost try_from_gives = { λ byte result. result ≡ kind_of byte };

    fn try_from(byte: u8) -> Result<Self, Refusal> {
        match byte {
            1 => Ok(Kind::Axis),
            2 => Ok(Kind::Value),
            3 => Ok(Kind::End),
            _ => Err(Refusal::UnknownKind),
        }
    }
}
