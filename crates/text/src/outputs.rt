// The files that a program writes.
ghost use Rattle.text.specs.Reads.{Opens};

use crate::inputs::path_of;
use crate::program::Program;
use std::env::Env;
use std::fs::File;
use std::io;

// The file of a name, emptied.
fn create_path(rt: &HostRuntime, name: &[u8]) -> io::Result<File> {
    File::create(rt, path_of(name)?)
}

impl Program<'_> {
    // The file of a name, emptied, or says why it cannot be written.
    fn create_file(self, name: &[u8]) -> Option<File> {
        match create_path(self.rt, name) {
            Ok(file) => Some(file),
            Err(why) => {
                self.say_unwritten(name, why);
                None
            }
        }
    }

    // Opens the file that argument i names, and puts its name at the start of a buffer, with its
    // length; or says why it cannot be written.
    pub fn open_output(self, i: usize, name: &mut [u8]) -> Option<(File, usize)>
        ensures { Opens result name.new }
    {
        match self.rt.arg(i, name) {
            Ok(n) => Some((self.create_file(&name[..n])?, n)),
            Err(why) => {
                self.say_no_name(why);
                None
            }
        }
    }
}
