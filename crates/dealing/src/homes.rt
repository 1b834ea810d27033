// For each starting slot the place of its final group, from the final order and from what each starting group was joined into.
ghost use Rattle.std.specs.Prelude.{length};
ghost use Rattle.dealing.specs.LentHomes.{SpotsFit, SpotsAt, HomesFit, HomesAt, HeadsFit, HeadsAt};

// The place of each slot of `order`, by slot.
pub fn spots(order: &[u32], spot: &mut [u32])
    requires { SpotsFit order.now (length spot.old) }
    ensures { SpotsAt order.now spot.new }
{
    for (p, s) in order.iter().enumerate() {
        spot[*s as usize] = p as u32;
    }
}

// The final group of each starting slot: `from` has the starting groups' slots by number, `into` what each number was joined into, `place` a
// number's slot plus 1, and `spot` the place of a slot in the final order.
pub fn find_homes(from: &[u32], into: &[u32], place: &[u32], spot: &[u32], home: &mut [u32])
    requires { HomesFit from.now into.now place.now (length spot.now) (length home.old) }
    ensures { HomesAt from.now into.now place.now spot.now home.new }
{
    for (i, s) in from.iter().enumerate() {
        let heir = into[i] as usize;
        let slot = place[heir] as usize;
        home[*s as usize] = spot[slot - 1];
    }
}

// The first word of each final group: where its shape stands.
pub fn heads(order: &[u32], slots: usize, regions: usize, finals: &mut [u32])
    requires { HeadsFit slots regions order.now (length finals.old) }
    ensures { HeadsAt slots regions order.now finals.old finals.new }
{
    for (p, s) in order.iter().enumerate() {
        finals[3 * p] = (slots + *s as usize * regions) as u32;
    }
}
