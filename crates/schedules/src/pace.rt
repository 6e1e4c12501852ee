ghost use Rattle.std.specs.Prelude.{◌≡◌, ◌≤◌};
ghost use Rattle.schedules.specs.Pace.{most_of, slower, slower_speed};

/// How a watch lets a machine go on.
#[derive(Clone, Copy, Debug, PartialEq, Eq)]
pub enum Speed {
    /// Step by step: the watch is asked before each step and told after it.
    Each,
    /// At once over plain steps, short of this address if there is one; step by step over the others.
    Short(Option<u64>),
    /// At once over any steps.
    Any,
}

impl Speed {
    /// The slower of two.
    pub fn slower(self, other: Speed) -> Speed
        ensures { result ≡ slower_speed self other }
    {
        match (self, other) {
            (Speed::Each, _) => Speed::Each,
            (Speed::Any, other) => other,
            (Speed::Short(_), Speed::Each) => Speed::Each,
            (Speed::Short(stop), Speed::Any) => Speed::Short(stop),
            (Speed::Short(None), Speed::Short(other)) => Speed::Short(other),
            (Speed::Short(Some(one)), Speed::Short(None)) => Speed::Short(Some(one)),
            (Speed::Short(Some(one)), Speed::Short(Some(other))) => {
                if one == other {
                    Speed::Short(Some(one))
                } else {
                    Speed::Each
                }
            }
        }
    }
}

/// How a watch lets a machine go on, and how many steps it wants to be told of at once.
#[derive(Clone, Copy, Debug, PartialEq, Eq)]
pub struct Pace {
    /// How.
    pub speed: Speed,
    /// The most steps at once; 0 counts as 1.
    pub most: u64,
}

impl Pace {
    /// Over any number of steps at once.
    pub fn of(speed: Speed) -> Pace
        ensures { result ≡ record { speed = speed; most = 18446744073709551615 } }
    {
        Pace {
            speed,
            most: u64::MAX,
        }
    }

    /// The most steps at once, one at least.
    pub fn most(self) -> u64
        ensures some { 1 ≤ result }
        ensures value { result ≡ most_of self }
    {
        self.most.max(1)
    }

    /// The slower of two.
    pub fn slower(self, other: Pace) -> Pace
        ensures { result ≡ slower self other }
    {
        Pace {
            speed: self.speed.slower(other.speed),
            most: self.most().min(other.most()),
        }
    }
}

/// How a walk ended.
#[derive(Clone, Copy, Debug, PartialEq, Eq)]
pub enum How<F> {
    /// With the last step of its schedule.
    Done,
    /// With the step that halted the machine.
    Halted,
    /// Before a step at which the watch stops.
    Stopped,
    /// The watch failed at the last event.
    Failed(F),
    /// The watch failed before a step, which was not done.
    Barred(F),
}
