// What a test program prints to.
ghost use Rattle.std.specs.Prelude.{◌≡◌, true, is_ok};

use std::fmt::Display;
use std::io::Result;

// What cannot be printed is left out, and what comes behind it is printed: a test program has no errors of its own.
#[derive(Clone, Copy)]
pub struct Output<'a, P> {
    pub to: &'a P,
}

impl<P: Print> Print for Output<'_, P> {
    fn print<D: Display + Drop>(&self, value: D) -> Result<()>
        ensures { is_ok result ≡ true }
    {
        let _lost = self.to.print(value);
        Ok(())
    }

    fn println<D: Display + Drop>(&self, value: D) -> Result<()>
        ensures { is_ok result ≡ true }
    {
        let _lost = self.to.println(value);
        Ok(())
    }

    fn write_all(&self, bytes: &[u8]) -> Result<()>
        ensures { is_ok result ≡ true }
    {
        let _lost = self.to.write_all(bytes);
        Ok(())
    }
}
