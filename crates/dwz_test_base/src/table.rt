//! The table that passes share, beside the core that it has to behave like.

use crate::expect::holds;
use dwz_core::{Core, EMPTY, Event};
use dwz_table::ClassTable;

#[test]
fn answers_what_stood_before(rt: HostRuntime) {
    let (table, mut first) = ClassTable::new(rt.alloc(), 4).expect(&rt, "memory");
    let before = [
        table.propose(&mut first, 2, 9),
        table.propose(&mut first, 2, 5),
        table.propose(&mut first, 2, 7),
    ];
    let drawn = [table.draw(&mut first), table.draw(&mut first)];
    let made = first.proposals();
    let leaders = table.close(first);
    holds(&rt, "before", before == [None, Some(9), Some(5)]);
    holds(&rt, "drawn and made", drawn == [0, 1] && made == 3);
    holds(
        &rt,
        "leader",
        leaders.of(2) == Some(5) && leaders.of(0) == None,
    );
}

#[test]
fn a_joined_pass_hands_over(rt: HostRuntime) {
    let (table, mut first) = ClassTable::new(rt.alloc(), 2).expect(&rt, "memory");
    let mut other = table.split(&mut first);
    let out = first.out();
    let before = table.propose(&mut other, 1, 3);
    let made = other.proposals();
    table.join(&mut first, other);
    let after = first.out();
    let own = first.proposals();
    let leaders = table.close(first);
    holds(&rt, "passes", out == 1 && after == 0);
    holds(&rt, "leader", before == None && leaders.of(1) == Some(3));
    holds(&rt, "proposals", made == 1 && own == 0);
}

#[test]
fn the_core_answers_what_stood_before(rt: HostRuntime) {
    let mut core = Core::new(rt.alloc(), 4).expect(&rt, "memory");
    let drawn = core.step(Event::Draw { worker: 0 });
    let before = core.step(Event::Propose {
        worker: 0,
        bucket: 2,
        node: 9,
    });
    holds(&rt, "nothing", drawn == 0 && before == EMPTY);
}
