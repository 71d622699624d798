//! Counts of a device.

ghost use Rattle.std.specs.Prelude.{◌≡◌};
ghost use Rattle.sudoers_files.specs.Shelf.{IsEndlessCountAfter, IsFailureCountAfter};

use crate::fault::FileFault;

/// How often a device failed, and how often a file of it had no end. Each count stops at the greatest number.
#[derive(Clone, Copy)]
pub struct DeviceFailureAndEndlessFileCounts {
    pub failures: u64,
    pub endless: u64,
}

impl DeviceFailureAndEndlessFileCounts {
    /// Returns the counts of a device that was not used yet.
    pub fn new() -> DeviceFailureAndEndlessFileCounts
        ensures { result ≡ record { failures = 0; endless = 0 } }
    {
        DeviceFailureAndEndlessFileCounts {
            failures: 0,
            endless: 0,
        }
    }

    /// Counts `fault`, and returns it.
    pub fn count_device_fault(&mut self, fault: FileFault) -> FileFault
        ensures same { result ≡ fault }
        ensures failed { IsFailureCountAfter fault self.old.failures self.new.failures }
        ensures endless { IsEndlessCountAfter fault self.old.endless self.new.endless }
    {
        match fault {
            FileFault::Failed => self.failures = self.failures.saturating_add(1),
            FileFault::NoEnd => self.endless = self.endless.saturating_add(1),
            FileFault::NoMemory => {}
        }
        fault
    }
}
