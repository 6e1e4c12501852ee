ghost use Rattle.std.specs.Prelude.{◌≡◌};
ghost use Rattle.devices.specs.Devices.{received, waits, oldest, without_oldest};

use crate::devices::Devices;

impl Devices {
    /// Receives a byte: it waits after the others, or it is lost where 64 wait already.
    #[tactic(auto, unfolding(crate::specs::Devices::received))]
    pub fn receive(&mut self, byte: u8)
        ensures { self.new ≡ received byte self.old }
    {
        if self.queue.is_full() {
            self.overrun = true;
        } else {
            self.queue.push(byte);
        }
    }

    /// Tells whether a byte waits.
    #[inline]
    pub(crate) fn waits(&self) -> bool
        ensures { result ≡ waits self.now.queue }
    {
        !self.queue.is_empty()
    }

    /// Answers the oldest byte that waits, or 0.
    #[inline]
    pub(crate) fn oldest(&self) -> u64
        ensures { result ≡ oldest self.now.queue }
    {
        match self.queue.first() {
            Some(&byte) => u64::from(byte),
            None => 0,
        }
    }

    /// Takes the oldest byte, if one waits.
    #[inline]
    pub(crate) fn take_oldest(&mut self)
        ensures { self.new ≡ record self.old { queue = without_oldest self.old.queue } }
    {
        self.queue.pop_at(0);
    }
}
