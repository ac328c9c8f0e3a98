//! The tables of orientations.

use lf_orient::{Orient, Rail, Symmetry, equal_under, is_candidate, opposite, row_rail};

const NONE: Symmetry = Symmetry { x: false, y: false };

const OVER_X: Symmetry = Symmetry { x: true, y: false };

const OVER_Y: Symmetry = Symmetry { x: false, y: true };

const BOTH: Symmetry = Symmetry { x: true, y: true };

/// All orientations, the upright ones first.
const ORIENTS: [Orient; 8] = [
    Orient::N,
    Orient::FS,
    Orient::FN,
    Orient::S,
    Orient::W,
    Orient::E,
    Orient::FW,
    Orient::FE,
];

#[test]
fn candidates_of_a_macro(rt: HostRuntime) {
    let rows = [
        (NONE, [true, false, false, false]),
        (OVER_X, [true, true, false, false]),
        (OVER_Y, [true, false, true, false]),
        (BOTH, [true, true, true, true]),
    ];
    for (symmetry, [n, flipped_south, flipped_north, s]) in rows {
        let want = [
            n,
            flipped_south,
            flipped_north,
            s,
            false,
            false,
            false,
            false,
        ];
        for (orient, want) in ORIENTS.into_iter().zip(want) {
            assert_eq!(rt; is_candidate(symmetry, orient), want);
        }
    }
}

#[test]
fn equal_to_north_under_a_site(rt: HostRuntime) {
    let rows = [
        (NONE, [true, false, false, false]),
        (OVER_X, [true, true, false, false]),
        (OVER_Y, [true, false, true, false]),
        (BOTH, [true, true, true, true]),
    ];
    for (symmetry, [n, flipped_south, flipped_north, s]) in rows {
        let want = [
            n,
            flipped_south,
            flipped_north,
            s,
            false,
            false,
            false,
            false,
        ];
        for (orient, want) in ORIENTS.into_iter().zip(want) {
            assert_eq!(rt; equal_under(symmetry, Orient::N, orient), want);
        }
    }
    assert!(rt; equal_under(OVER_X, Orient::S, Orient::FN));
    assert!(rt; !equal_under(OVER_X, Orient::S, Orient::FS));
    assert!(rt; equal_under(OVER_Y, Orient::S, Orient::FS));
    assert!(rt; !equal_under(OVER_Y, Orient::S, Orient::FN));
    assert!(rt; equal_under(NONE, Orient::W, Orient::W));
}

#[test]
fn rails_of_rows(rt: HostRuntime) {
    assert_eq!(rt; row_rail(Orient::N), Some(Rail::Ground));
    assert_eq!(rt; row_rail(Orient::FN), Some(Rail::Ground));
    assert_eq!(rt; row_rail(Orient::S), Some(Rail::Power));
    assert_eq!(rt; row_rail(Orient::FS), Some(Rail::Power));
    assert_eq!(rt; row_rail(Orient::E), None);
    assert_eq!(rt; opposite(Rail::Ground), Rail::Power);
    assert_eq!(rt; opposite(Rail::Power), Rail::Ground);
}
