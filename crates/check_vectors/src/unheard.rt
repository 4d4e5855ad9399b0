// Printing of which nobody hears that it failed.
use std::fmt::Display;
use std::io::Result;

// Prints by another. A write that fails is left, and what comes behind it is written all the same: there is nobody to tell.
#[derive(Clone, Copy)]
pub struct Unheard<'a, P>(pub &'a P);

impl<P: Print> Print for Unheard<'_, P> {
    fn print<D: Display + Drop>(&self, value: D) -> Result<()> {
        let _ = self.0.print(value);
        Ok(())
    }

    fn println<D: Display + Drop>(&self, value: D) -> Result<()> {
        let _ = self.0.println(value);
        Ok(())
    }

    fn write_all(&self, bytes: &[u8]) -> Result<()> {
        let _ = self.0.write_all(bytes);
        Ok(())
    }
}
