//! Which forms of lines a schedule may have.
ghost use Rattle.std.specs.Prelude.{◌≡◌};
ghost use Rattle.roc_sched.specs.Forms.{plain_forms, coordinators};

/// Which forms of lines are taken besides those that any schedule has, and which coordinators there are.
#[derive(Clone, Copy, Debug, PartialEq, Eq)]
pub struct Forms {
    /// Whether servers may be stopped: `stop` lines.
    pub stops: bool,
    /// Where coordinators may be drained, by `drain` lines, how many there are. Else there are sixteen.
    pub coords: Option<u16>,
}

impl Forms {
    /// No further forms, and sixteen coordinators.
    pub fn plain() -> Forms
        ensures { result ≡ plain_forms }
    {
        Forms {
            stops: false,
            coords: None,
        }
    }

    /// How many coordinators there are.
    pub(crate) fn coordinators(self) -> u16
        ensures { result ≡ coordinators self }
    {
        match self.coords {
            Some(coords) => coords,
            None => 16,
        }
    }
}
