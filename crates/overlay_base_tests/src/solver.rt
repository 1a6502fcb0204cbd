// The solvers with names, and the radii of their passes.

use overlay_base::overlay_core::solver::{Precision, Solver, Strategy};
use std::process::Abort;

#[test]
fn solvers_have_the_strategies_of_their_names(rt: HostRuntime) {
    let solvers = [
        (Solver::LIST, Strategy::List),
        (Solver::TREE, Strategy::Tree),
        (Solver::FRAG, Strategy::Frag),
        (Solver::AUTO, Strategy::Auto),
    ];
    for (solver, strategy) in solvers {
        assert_eq!(rt;
            (solver.strategy, solver.precision),
            (strategy, Precision::HIGH)
        );
    }
}

#[test]
fn the_default_solver_is_auto(rt: HostRuntime) {
    let solver = Solver::default();
    assert_eq!(rt;
        (solver.strategy, solver.precision),
        (Solver::AUTO.strategy, Solver::AUTO.precision)
    );
}

/// Wants these squared radii of four passes.
fn check_radii(rt: &impl Abort, precision: Precision, wanted: [i64; 4]) {
    let mut radius = Solver::with_precision(precision).snap_radius();
    for wanted in wanted {
        assert_eq!(rt; radius.radius_squared::<i16>(), wanted);
        radius.increment();
    }
}

#[test]
fn radii_stop_at_the_cap(rt: HostRuntime) {
    let late = Precision {
        start: 23,
        progression: 1,
    };
    let huge = Precision {
        start: 24,
        progression: usize::MAX,
    };
    let cap = 16_777_216;
    check_radii(&rt, Precision::HIGH, [1, 2, 4, 8]);
    check_radii(&rt, late, [8_388_608, cap, cap, cap]);
    check_radii(&rt, huge, [cap; 4]);
}
