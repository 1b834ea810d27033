// Two runs of bytes beside each other.
ghost use Rattle.std.specs.Prelude.{◌≡◌};
ghost use Rattle.stores.specs.Coordinates.{are_same_bytes};

// They are equally long, and no byte differs.
pub fn same_bytes(a: &[u8], b: &[u8]) -> bool
    ensures { result ≡ are_same_bytes a.now b.now }
{
    a == b
}
