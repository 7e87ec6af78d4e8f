//! What can be done about a fault.
use flash_volume::Error;
use named_reading::NameRefusal;
use std::io;

/// What can be done about a file or a stream that failed so; nothing where the failure says it.
pub fn file_advice(kind: io::ErrorKind) -> &'static str {
    match kind {
        io::ErrorKind::OutOfMemory => "; give the program more memory",
        io::ErrorKind::PermissionDenied => "; check the permissions of the file and of its folder",
        io::ErrorKind::StorageFull | io::ErrorKind::QuotaExceeded => "; free some space there",
        io::ErrorKind::NotFound => "; check the path",
        _ => "",
    }
}

/// What can be done about a refusal of a volume.
pub fn volume_advice(error: Error) -> &'static str {
    match error {
        Error::NoMemory => "nothing was changed; give the program more memory",
        Error::Device =>
            "the file could not be written or synced (is the disk full?); a later run finds the volume as it was",
        Error::NoSpace =>
            "nothing was changed; df prints the free space; rm a file, or format a larger image (--segments)",
        Error::NoFile =>
            "nothing was changed; rm a file, or format an image for more files (--files, at most 1024)",
        Error::NoNode =>
            "nothing was changed; rm a file, or format an image with more nodes (--nodes, at most 65536)",
        Error::TooFar => "nothing was changed; a file can't be so long",
        Error::BadGeometry =>
            "this is not an image of a volume, or one of a later format; format makes a new image",
        Error::NoPack =>
            "no checkpoint of the volume can be read; use a copy of the image that check calls sound",
        Error::BadImage(_) =>
            "the volume can't be used; check prints the fault; use a copy of the image that check calls sound",
        _ => "a later run finds the volume as it was at its last checkpoint",
    }
}

/// What can be done about a refusal of a name.
pub fn name_advice(refusal: NameRefusal) -> &'static str {
    match refusal {
        NameRefusal::NoFolder =>
            "it was made by another program; ls shows its files by number, get --number reads them",
        NameRefusal::BadName => "give another name",
        NameRefusal::NoSuchFile => "ls shows what there is",
        NameRefusal::LostFile =>
            "another program deleted it, or an rm was cut off; rm that name first",
        NameRefusal::NameTaken => "rm that file first, or give another name",
        NameRefusal::NoRoom =>
            "nothing was changed; df prints the free space; rm a file, or format a larger image (--segments)",
    }
}
