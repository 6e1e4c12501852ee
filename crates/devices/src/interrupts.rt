ghost use Rattle.std.specs.Prelude.{◌≡◌};
ghost use Rattle.devices.specs.Devices.{interrupts_of};

use crate::devices::Devices;
use base::interrupt;

/// The timer's bit in mip.
const TIMER_INTERRUPT: u64 = 1 << interrupt::TIMER;

/// The console's bit in mip.
const CONSOLE_INTERRUPT: u64 = 1 << interrupt::EXTERNAL;

impl Devices {
    /// Answers what the devices ask for, by the bits of mip: bit 7 while mtime is mtimecmp or more, bit 11 while control allows
    /// it and a byte waits.
    #[inline]
    #[tactic(auto, unfolding(crate::specs::Devices::interrupts_of))]
    pub fn interrupts(&self) -> u64
        ensures { result ≡ interrupts_of self.now }
    {
        TIMER_INTERRUPT * u64::from(self.mtime >= self.mtimecmp())
            + CONSOLE_INTERRUPT * u64::from(self.control && self.waits())
    }
}
