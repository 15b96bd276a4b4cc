//! How the steps of a script go.
ghost use Rattle.std.specs.Prelude.{◌≡◌};
ghost use Rattle.cml_report.specs.{is_by_ring};
ghost use Rattle.cml_report.specs.Left.{is_by_lane};

/// How a step goes.
#[derive(Clone, Copy, Debug, PartialEq, Eq)]
pub enum Route {
    /// By a call of its thread's seat.
    Seat,
    /// By its thread's lane to what it sends to, which has this capacity.
    Lane(usize),
    /// By its thread's feed, the one of this number: feeds are counted from 0 in text order.
    Feed(usize),
}

impl Route {
    /// Whether it goes by a lane or a feed.
    pub fn is_by_ring(self) -> bool
        ensures { result ≡ is_by_ring self }
    {
        matches!(self, Route::Lane(_) | Route::Feed(_))
    }

    /// Whether it goes by a lane.
    pub fn is_by_lane(self) -> bool
        ensures { result ≡ is_by_lane self }
    {
        matches!(self, Route::Lane(_))
    }
}
