ghost use Rattle.std.specs.Prelude.{◌≡◌};
ghost use Rattle.devices.specs.Devices.{ticked};

use crate::devices::Devices;

impl Devices {
    /// Counts one tick of the timer, modulo 2^64.
    #[inline]
    pub fn tick(&mut self)
        ensures { self.new ≡ ticked self.old }
    {
        self.mtime = self.mtime.wrapping_add(1);
    }
}
