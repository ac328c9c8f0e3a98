//! An optional place in few bytes.

ghost use Rattle.std.specs.Prelude.{◌≡◌, ◌<ℤ◌, negsuc, Some};

use crate::place::Place;
use lf_orient::Orient;
use std::marker::Model;

/// An optional place in 12 bytes, for tables of many cells. Contracts see the optional place.
#[derive(Clone, Copy, Debug, PartialEq, Eq)]
pub struct PackedPlace {
    x: i32,
    y: i32,
    /// `None` if there is no place; x and y are then 0.
    orient: Option<Orient>,
    ghost x_in_def: { negsuc 2147483647 <ℤ x },
    ghost y_in_def: { negsuc 2147483647 <ℤ y },
}

impl Model for PackedPlace {
    ghost use Rattle.std.specs.Prelude.{Option};
    ghost use Rattle.lf_floorplan.specs.declared.place.Place.{Place};

    ghost Value = { Option Place };

    ghost use Rattle.lf_floorplan.specs.PackedPlaces.{packed_place_in, packed, packed_back, IsPackedPlace};

    ghost view = { packed_place_in };

    ghost invariant = { IsPackedPlace };

    ghost inverse = { packed };

    ghost inverse_ok = { packed_back };
}

impl PackedPlace {
    /// Returns the place, packed.
    fn at(place: &Place) -> Self
        ensures { result ≡ Some place.now }
    {
        PackedPlace {
            x: place.x,
            y: place.y,
            orient: Some(place.orient),
        }
    }

    /// Returns the optional place, packed.
    pub fn of(place: Option<Place>) -> Self
        ensures { result ≡ place }
    {
        match place {
            Some(place) => PackedPlace::at(&place),
            None => PackedPlace {
                x: 0,
                y: 0,
                orient: None,
            },
        }
    }

    /// Returns the optional place.
    pub fn place(&self) -> Option<Place>
        ensures { result ≡ self.now }
    {
        match self.orient {
            Some(orient) => Some(Place {
                x: self.x,
                y: self.y,
                orient,
            }),
            None => None,
        }
    }
}
