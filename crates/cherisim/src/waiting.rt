//! Whoever waits at a terminal.

use program::{Progress, STRIDE};
use std::io::{self, IsTerminal, Write};
use std::time::{Duration, Instant};

/// How many seconds a run, or a command of a session, goes on before it is shown how far it came.
const PATIENCE: u64 = 2;

/// A terminal on standard error, which is shown every two seconds how many steps of a run, or of a command, were done.
#[derive(Drop)]
pub struct Waiting<'a> {
    rt: &'a HostRuntime,
    /// When it was shown last; none where nothing is shown.
    shown: Option<Instant>,
}

impl<'a> Waiting<'a> {
    /// Whoever waits from now on: nobody where nothing is to be told, or standard error is no terminal.
    pub fn new(rt: &'a HostRuntime, is_quiet: bool) -> Self {
        let is_shown = !is_quiet && rt.stderr().is_terminal();
        Waiting {
            rt,
            shown: if is_shown {
                Instant::now(rt).ok()
            } else {
                None
            },
        }
    }
}

impl Progress for Waiting<'_> {
    fn tell(&mut self, steps: u64) {
        let Some(shown) = self.shown else { return };
        match Instant::now(self.rt) {
            // Of what is done next it is told for the first time: what came before may be a wait for a command.
            Ok(now) if steps < 2 * STRIDE => self.shown = Some(now),
            Ok(now) if now.duration_since(shown) >= Duration::from_secs(PATIENCE) => {
                // What can't be shown isn't waited for.
                let _ = writeln!(io::writer(&self.rt.stderr()), "cherisim: {} steps", steps);
                self.shown = Some(now);
            }
            _ => {}
        }
    }
}
