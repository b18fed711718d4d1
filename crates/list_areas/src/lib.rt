// The area that a paint covers on one list.
#![tactic(auto)]

ghost use Rattle.std.specs.Prelude.{◌≡◌, true};
ghost use Rattle.theory_signed.specs.Parts.{gap};
ghost use Rattle.theory_intervals.specs.OverInt.{fit};
ghost use Rattle.list_areas.specs.Areas.{area_of};

// What a paint does on each of its tracks: the lines from start to end, the end left out, get the state.
#[derive(Clone, Copy)]
pub struct Stroke {
    pub start: i16,
    pub end: i16,
    pub state: i16,
}

// The tracks from track_start to track_end, the end left out, and what is painted on each.
#[derive(Clone, Copy)]
pub struct Area {
    pub track_start: i16,
    pub track_end: i16,
    pub stroke: Stroke,
    pub ghost fits: { fit (area_of track_start track_end stroke.start stroke.end stroke.state) ≡ true },
}

impl Area {
    // How many tracks the area crosses.
    pub fn tracks(self) -> usize
        ensures { result ≡ gap self.track_start self.track_end }
    {
        self.track_end.abs_diff(self.track_start) as usize
    }
}
