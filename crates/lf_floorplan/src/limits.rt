//! The limits of a design.

ghost use Rattle.std.specs.Prelude.{◌≡◌, ◌≤◌, ◌<◌, ◌↔◌, IsSome, IfSome};
ghost use Rattle.lf_floorplan.specs.Bounds.{IsLimit, AreLimits};

/// The limits of a design, each from 1 to its largest value. Loading refuses a design that exceeds
/// those of rows, fences or components.
#[derive(Clone, Copy, Debug, PartialEq, Eq)]
pub struct Limits {
    /// Rows of core sites, at most 65,535.
    pub rows: u32,
    /// Fences, at most 1,024.
    pub fences: u32,
    /// Components, at most 4,000,000.
    pub components: u32,
    /// Sessions of a team, at most 64.
    pub sessions: u32,
    /// Undo entries of a team, at most 1,024.
    pub undo: u32,
    /// Revisions of a team, at most 4,000,000,000.
    pub revisions: u32,
    pub ghost allowed: { AreLimits rows fences components sessions undo revisions },
}

impl Limits {
    /// Returns the default limits: 8 sessions, 64 undo entries, and all others at their largest
    /// values. These are 65,535 rows, 1,024 fences, 4,000,000 components and 4,000,000,000
    /// revisions.
    pub fn standard() -> Self
        ensures rows { result.rows ≡ 65535 }
        ensures fences { result.fences ≡ 1024 }
        ensures components { result.components ≡ 4000000 }
        ensures sessions { result.sessions ≡ 8 }
        ensures undo { result.undo ≡ 64 }
        ensures revisions { result.revisions ≡ 4000000000 }
    {
        Limits {
            rows: 65_535,
            fences: 1_024,
            components: 4_000_000,
            sessions: 8,
            undo: 64,
            revisions: 4_000_000_000,
        }
    }

    /// Returns these limits. `None` iff one of them is 0 or above its largest value.
    pub fn checked(
        rows: u32,
        fences: u32,
        components: u32,
        sessions: u32,
        undo: u32,
        revisions: u32,
    ) -> Option<Self>
        ensures exactly { IsSome result ↔ AreLimits rows fences components sessions undo revisions }
        ensures same_rows { IfSome result (λ l. l.rows ≡ rows) }
        ensures same_fences { IfSome result (λ l. l.fences ≡ fences) }
        ensures same_components { IfSome result (λ l. l.components ≡ components) }
        ensures same_sessions { IfSome result (λ l. l.sessions ≡ sessions) }
        ensures same_undo { IfSome result (λ l. l.undo ≡ undo) }
        ensures same_revisions { IfSome result (λ l. l.revisions ≡ revisions) }
    {
        if rows < 1 || 65_535 < rows {
            return None;
        }
        if fences < 1 || 1_024 < fences {
            return None;
        }
        if components < 1 || 4_000_000 < components {
            return None;
        }
        if sessions < 1 || 64 < sessions {
            return None;
        }
        if undo < 1 || 1_024 < undo {
            return None;
        }
        if revisions < 1 || 4_000_000_000 < revisions {
            return None;
        }
        Some(Limits {
            rows,
            fences,
            components,
            sessions,
            undo,
            revisions,
        })
    }
}
