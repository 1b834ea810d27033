// Mode 0: equal sets share an id, and sets are grouped by shape; merging joins groups while a pair gains; what is left of them is arranged.
ghost use Rattle.std.specs.Prelude.{◌≡◌, List, ℕ};
ghost use Rattle.merging.specs.LentOptimized.{Optimized};
ghost use Rattle.encoder.specs.Lent.{Fit};
ghost use Rattle.encoder.specs.LentArranged.{tables_of, GatheredAt, JoinFit, RegroupFit, JoinedGroups};

use crate::arranging::arrange;
use crate::encoded::{Encoded, Gathered};
use crate::places::Places;
use grouping::group;
use ids::identify;
use merging::Merged;
use slots::MergeTables;
use table::Shapes;

// Numbers and groups the sets that are held before the tables. None where they have too many shapes.
pub fn gather(work: &mut [u32], p: Places) -> Option<Gathered>
    requires { Fit p work.old }
    ensures { GatheredAt p work.old work.new result }
{
    let distinct = identify(work, 0, p.sets, p.line, p.first, p.ids);
    let t = Shapes {
        regions: p.regions,
        room: p.room,
        slots: p.slots,
        order: p.order,
        counts: p.counts,
        costed: true,
    };
    let groups = group(work, t, 0, p.sets, p.first, p.kinds)?;
    Some(Gathered { groups, distinct })
}

// Where merging finds so many groups. The words from `rows` on are free until they are arranged: the planes stand there.
pub fn tables(p: Places, groups: usize) -> MergeTables
    ensures { result ≡ tables_of p groups }
{
    MergeTables {
        regions: p.regions,
        groups,
        slots: p.slots,
        order: p.order,
        counts: p.counts,
        place: p.place,
        costs: p.costs,
        columns: p.columns,
        into: p.into,
        log: p.log,
        planes: p.rows,
    }
}

// Arranges what merging has left of so many groups.
pub fn regroup(work: &mut [u32], p: Places, groups: usize, distinct: usize, m: Merged) -> Encoded
    requires { RegroupFit p groups distinct m work.old }
    ensures { (old : List ℕ) → JoinFit p groups distinct old → Optimized (tables_of p groups) m.merges m.weighed m.before m.after old work.old → JoinedGroups p old work.new result }
{
    let count = arrange(work, p, groups, groups + m.merges);
    Encoded {
        distinct,
        count,
        groups,
        merges: m.merges,
        weighed: m.weighed,
        before: m.before,
        after: m.after,
    }
}
