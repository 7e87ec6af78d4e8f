//! A name of a file.
ghost use Rattle.std.specs.Prelude.{◌≡◌, true};
ghost use Rattle.named_folder.specs.Name.{IsName, IsNameByte};

/// The most bytes of a name, as Linux has it.
const LONGEST_NAME: usize = 255;

/// A row of the folder: a name, the number of the file that has its bytes, and how many bytes it has.
#[derive(PartialEq, Eq, Drop)]
pub struct FolderRow {
    pub name: String,
    /// The number of the file, past that of the folder.
    pub number: u32,
    /// How many bytes the file has. Its last block goes on with zeros.
    pub bytes: u64,
}

/// Whether a file may have this name: 1 to 255 bytes, with no slash and no control character of ASCII (a line end among them), and
/// neither `.` nor `..`, so that it is a name in a folder of the operating system too. Who shows it may have to escape other characters.
pub fn is_name(name: &str) -> bool
    ensures yes { result ≡ true → IsName name.now }
    ensures no { IsName name.now → result ≡ true }
{
    if name.is_empty() || name.len() > LONGEST_NAME || name == "." || name == ".." {
        return false;
    }
    name.bytes().all(is_name_byte)
}

fn is_name_byte(byte: u8) -> bool
    ensures yes { result ≡ true → IsNameByte byte }
    ensures no { IsNameByte byte → result ≡ true }
{
    byte >= b' ' && byte != b'/' && byte != 127
}
