//! What is said of a fault, and which status it has.
use crate::advice::{file_advice, name_advice, volume_advice};
use crate::fault::Fault;
use crate::shown::EscapedText;
use flash_volume::Error;
use std::io;
use std::io::Write;
use tool_disk::DiskFault;

/// A volume, an image or a name was refused.
const REFUSED: u8 = 1;

/// The words of the call were refused.
const MISUSED: u8 = 2;

/// A file or a stream failed, or there was no memory.
const FAILED: u8 = 4;

// What is said of a file that stands in the way.
const THERE: &str =
    "a file of that name exists and is not overwritten; give another path, or remove it first";

impl Fault {
    /// Says on `errors` what is wrong with what, and what can be done, and answers the exit status. `image` is the path of the image
    /// file. Of a pipe that nobody reads any more nothing is said, and the status is 0.
    pub fn tell<E: Write>(&self, image: &str, errors: &mut E) -> u8 {
        if self.is_closed_pipe() {
            return 0;
        }
        let _ = self.write(image, errors);
        self.status()
    }

    fn write<E: Write>(&self, image: &str, errors: &mut E) -> io::Result<()> {
        write!(errors, "rusziveg: ")?;
        match self {
            Fault::NoWords => writeln!(errors, "an argument is not text (UTF-8)"),
            Fault::Output(error) => writeln!(errors, "standard output: {error}"),
            Fault::Untold(done, error) => {
                writeln!(
                    errors,
                    "standard output: {error}; {done}, but this could not be printed"
                )
            }
            Fault::Input(error) => writeln!(
                errors,
                "standard input: {error}; nothing was changed{}",
                file_advice(error.kind())
            ),
            Fault::File(path, error) => writeln!(
                errors,
                "{}: {error}{}",
                EscapedText(path.as_str()),
                file_advice(error.kind())
            ),
            Fault::FileThere(path) => writeln!(errors, "{}: {THERE}", EscapedText(path.as_str())),
            Fault::NoFiles(path) => writeln!(
                errors,
                "{}: there is no regular file in the folder",
                EscapedText(path.as_str())
            ),
            Fault::Beyond(beyond) => writeln!(errors, "{beyond}"),
            Fault::Client(error) => writeln!(
                errors,
                "the client: {error}; serve expects an NBD client on standard input and output"
            ),
            _ => {
                let image = EscapedText(image);
                write!(errors, "{image}: ")?;
                self.write_of_image(errors)
            }
        }
    }

    // What is wrong with the image, or with what its volume has.
    fn write_of_image<E: Write>(&self, errors: &mut E) -> io::Result<()> {
        match self {
            Fault::Image(error) => match error.kind() {
                io::ErrorKind::NotFound => {
                    writeln!(errors, "there is no such file; format makes a new image")
                }
                kind => writeln!(errors, "{error}{}", file_advice(kind)),
            },
            Fault::Busy => writeln!(
                errors,
                "another program has the image open; try again when it has ended, or wait longer (--wait SECONDS)"
            ),
            Fault::NotAFile => writeln!(
                errors,
                "the image is not a regular file; give the path of an image file"
            ),
            Fault::Unmade(error) => writeln!(
                errors,
                "{error}; no image was made (is the disk full?)"
            ),
            Fault::TooLong => writeln!(
                errors,
                "the input is larger than the image; format a larger one (--segments)"
            ),
            Fault::Unsettled => writeln!(
                errors,
                "the file failed while the change was synced (is the disk full?); a later run finds the volume as it was, or with the change: ls shows which"
            ),
            _ => self.write_of_volume(errors),
        }
    }

    // Why the volume, or a name, was refused.
    fn write_of_volume<E: Write>(&self, errors: &mut E) -> io::Result<()> {
        match self {
            Fault::Volume(error) => writeln!(errors, "{error}; {}", volume_advice(*error)),
            Fault::Name(refusal) => writeln!(errors, "{refusal}; {}", name_advice(*refusal)),
            Fault::Named(name, refusal) => writeln!(
                errors,
                "{}: {refusal}; {}",
                EscapedText(name.as_str()),
                name_advice(*refusal)
            ),
            Fault::NameStays(error) => writeln!(
                errors,
                "{error}; the file is removed, but its name is still in the folder; rm another file, then this name again"
            ),
            Fault::Disk(disk, fault) => write_of_disk(EscapedText(disk.as_str()), fault, errors),
            _ => Ok(()),
        }
    }

    fn status(&self) -> u8 {
        match self {
            Fault::NoWords => MISUSED,
            Fault::Output(_)
            | Fault::Untold(_, _)
            | Fault::Input(_)
            | Fault::File(_, _)
            | Fault::Image(_)
            | Fault::Client(_)
            | Fault::Busy
            | Fault::Unsettled => FAILED,
            Fault::Volume(error) | Fault::Unmade(error) | Fault::NameStays(error)
                if is_failure(*error) => { FAILED }
            _ => REFUSED,
        }
    }
}

// Why a disk was not served.
fn write_of_disk<E: Write>(
    disk: EscapedText<'_>,
    fault: &DiskFault,
    errors: &mut E,
) -> io::Result<()> {
    match fault {
        DiskFault::NoDisk => writeln!(
            errors,
            "{disk}: there is no such disk; give --size BYTES to make it"
        ),
        DiskFault::OtherSize(bytes) => writeln!(
            errors,
            "{disk}: the disk has {bytes} bytes; leave --size out"
        ),
        DiskFault::OddSize(block) => writeln!(
            errors,
            "{disk}: a disk's size is a multiple of {block} bytes; give another --size"
        ),
        DiskFault::Broken => writeln!(
            errors,
            "{disk}: its files are not the parts of one disk; rm them, or give another name (--disk)"
        ),
        DiskFault::Files(refusal) => {
            writeln!(errors, "{disk}: {refusal}; {}", name_advice(*refusal))
        }
        _ => Ok(()),
    }
}

// Whether the device failed, or there was no memory.
fn is_failure(error: Error) -> bool {
    matches!(error, Error::NoMemory | Error::Device)
}
