// What the command needs of the system.
use std::io::Error;
use std::rt::Runtime;

// The system, with standard error, which takes any bytes.
pub trait Host: Runtime {
    // Writes bytes to standard error, which need not be text.
    fn tell(&self, bytes: &[u8]) -> Result<(), Error>;
}

impl Host for HostRuntime {
    fn tell(&self, bytes: &[u8]) -> Result<(), Error> {
        self.stderr().write_all(bytes)
    }
}
