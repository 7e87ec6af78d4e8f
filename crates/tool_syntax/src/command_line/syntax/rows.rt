//! The commands, and what each takes: in the order in which the help tells them.
use crate::command_line::syntax::argument::{Argument, Takes};

/// Each command, and what it does.
pub static COMMANDS: [(&str, &str); 20] = [
    ("format", "Make a new image file with an empty volume"),
    ("put", "Store standard input, or FILE, as the file NAME"),
    (
        "append",
        "Add standard input, or FILE, to the end of the file NAME",
    ),
    (
        "get",
        "Write the bytes of a file to standard output, or to FILE",
    ),
    (
        "cat",
        "Write the bytes of files to standard output, one after the other",
    ),
    ("rm", "Remove files"),
    ("mv", "Rename the file NAME"),
    ("cp", "Copy the file NAME to another name"),
    ("ls", "List the files, with their sizes and numbers"),
    (
        "clean",
        "Move the valid blocks out of partly filled sections, to make free segments",
    ),
    (
        "check",
        "Print whether the image is sound, or its exact fault",
    ),
    (
        "stat",
        "Print the volume's version, and its counts of blocks, segments, files and nodes",
    ),
    (
        "df",
        "Print how many bytes are usable, used, free, and kept for cleaning",
    ),
    ("map", "Draw each segment: how full it is, its log, its age"),
    (
        "upgrade",
        "Copy the volume, of any format, into a new image file of format 3",
    ),
    (
        "serve",
        "Serve a disk to one NBD client over standard input and output, until the client leaves",
    ),
    (
        "dump",
        "Write each file into FOLDER, under its name, or its number where it has no name",
    ),
    (
        "import",
        "Store each regular file of FOLDER under its name; folders, links and pipes are skipped, with status 1",
    ),
    (
        "completions",
        "Print a shell's completions, for its folder of completions",
    ),
    ("manual", "Print the manual page, for man"),
];

/// Each argument of a command.
pub static ARGUMENTS: [(&str, Argument); 57] = [
    ("format", IMAGE),
    ("format", SHAPE),
    ("format", SEGMENTS),
    ("format", PER_SECTION),
    ("format", FILES),
    ("format", NODES),
    ("put", IMAGE),
    ("put", NAME),
    ("put", READ_FILE),
    ("put", NO_CLOBBER),
    ("append", IMAGE),
    ("append", NAME),
    ("append", READ_FILE),
    ("get", IMAGE),
    ("get", NAME_IF_ANY),
    ("get", WRITTEN_FILE),
    ("get", NUMBER),
    ("get", OFFSET),
    ("get", LENGTH),
    ("cat", IMAGE),
    ("cat", NAMES),
    ("rm", IMAGE),
    ("rm", NAMES),
    ("mv", IMAGE),
    ("mv", NAME),
    ("mv", NEW_NAME),
    ("cp", IMAGE),
    ("cp", NAME),
    ("cp", COPY_NAME),
    ("cp", NO_CLOBBER),
    ("ls", IMAGE),
    ("ls", JSON),
    ("clean", IMAGE),
    ("clean", BACKGROUND),
    ("check", IMAGE),
    ("check", JSON),
    ("stat", IMAGE),
    ("stat", JSON),
    ("df", IMAGE),
    ("df", JSON),
    ("map", IMAGE),
    ("map", SVG),
    ("map", JSON),
    ("upgrade", IMAGE),
    ("upgrade", NEW_IMAGE),
    ("serve", IMAGE),
    ("serve", DISK),
    ("serve", SIZE),
    ("serve", READ_ONLY),
    ("serve", WORKERS),
    ("serve", FLUSH_EVERY),
    ("serve", STATS),
    ("dump", IMAGE),
    ("dump", FOLDER),
    ("import", IMAGE),
    ("import", FOLDER),
    ("completions", SHELL),
];

/// Of each command.
pub const QUIET: Argument = Argument {
    id: "quiet",
    takes: Takes::Flag,
    value: "",
    otherwise: "",
    help: "Print errors only, no reports of success and no progress",
};

/// Of each command.
pub const WAIT: Argument = Argument {
    id: "wait",
    takes: Takes::Number,
    value: "SECONDS",
    otherwise: "1",
    help: "How long to wait for an image that another program has open",
};

const IMAGE: Argument = Argument {
    id: "image",
    takes: Takes::Word,
    value: "IMAGE",
    otherwise: "",
    help: "The image file",
};

const SHAPE: Argument = Argument {
    id: "shape",
    takes: Takes::Shape,
    value: "SHAPE",
    otherwise: "kernel",
    help: "kernel: 512 blocks of 4096 bytes a segment; tiny: 8 blocks of 64 bytes",
};

const SEGMENTS: Argument = Argument {
    id: "segments",
    takes: Takes::Number,
    value: "N",
    otherwise: "32",
    help: "Number of segments, 16 to 4096",
};

const PER_SECTION: Argument = Argument {
    id: "per-section",
    takes: Takes::Number,
    value: "N",
    otherwise: "1",
    help: "Segments per section, the unit of cleaning, 1 to 16",
};

const FILES: Argument = Argument {
    id: "files",
    takes: Takes::Number,
    value: "N",
    otherwise: "256",
    help: "Maximum number of files, 1 to 1024; the folder of names is one of them",
};

const NODES: Argument = Argument {
    id: "nodes",
    takes: Takes::Number,
    value: "N",
    otherwise: "2048",
    help: "Maximum number of nodes, from the number of files to 65536",
};

const NAME: Argument = Argument {
    id: "name",
    takes: Takes::Word,
    value: "NAME",
    otherwise: "",
    help: "The file's name on the volume",
};

const NAME_IF_ANY: Argument = Argument {
    id: "name",
    takes: Takes::OneWord,
    value: "NAME",
    otherwise: "",
    help: "The file's name on the volume",
};

const READ_FILE: Argument = Argument {
    id: "file",
    takes: Takes::OneWord,
    value: "FILE",
    otherwise: "",
    help: "A file to read instead of standard input",
};

const NO_CLOBBER: Argument = Argument {
    id: "no-clobber",
    takes: Takes::Flag,
    value: "",
    otherwise: "",
    help: "Do not replace a file of that name: fail instead",
};

const WRITTEN_FILE: Argument = Argument {
    id: "file",
    takes: Takes::OneWord,
    value: "FILE",
    otherwise: "",
    help: "A new file to write instead of standard output",
};

const NUMBER: Argument = Argument {
    id: "number",
    takes: Takes::Number,
    value: "N",
    otherwise: "",
    help: "The file's number, instead of a name; writes whole blocks",
};

const OFFSET: Argument = Argument {
    id: "offset",
    takes: Takes::Bytes,
    value: "BYTES",
    otherwise: "",
    help: "Skip the first BYTES bytes",
};

const LENGTH: Argument = Argument {
    id: "length",
    takes: Takes::Bytes,
    value: "BYTES",
    otherwise: "",
    help: "Write at most BYTES bytes",
};

const NAMES: Argument = Argument {
    id: "names",
    takes: Takes::Words,
    value: "NAME",
    otherwise: "",
    help: "The files' names on the volume",
};

const NEW_NAME: Argument = Argument {
    id: "to",
    takes: Takes::Word,
    value: "NEW",
    otherwise: "",
    help: "The new name, which no other file may have",
};

const COPY_NAME: Argument = Argument {
    id: "to",
    takes: Takes::Word,
    value: "NEW",
    otherwise: "",
    help: "The copy's name",
};

const JSON: Argument = Argument {
    id: "json",
    takes: Takes::Flag,
    value: "",
    otherwise: "",
    help: "Print JSON",
};

const BACKGROUND: Argument = Argument {
    id: "background",
    takes: Takes::Flag,
    value: "",
    otherwise: "",
    help: "Clean one section only, chosen by its cost, benefit and age",
};

const SVG: Argument = Argument {
    id: "svg",
    takes: Takes::Text,
    value: "FILE",
    otherwise: "",
    help: "Write a picture (SVG) to the new file FILE",
};

const NEW_IMAGE: Argument = Argument {
    id: "to",
    takes: Takes::Word,
    value: "NEW",
    otherwise: "",
    help: "The new image file, which must not exist",
};

const DISK: Argument = Argument {
    id: "disk",
    takes: Takes::Text,
    value: "NAME",
    otherwise: "disk",
    help: "The disk's name; the files NAME.00, NAME.01 and so on hold its data",
};

const SIZE: Argument = Argument {
    id: "size",
    takes: Takes::Bytes,
    value: "BYTES",
    otherwise: "",
    help: "The disk's size; makes the disk if there is none of that name",
};

const READ_ONLY: Argument = Argument {
    id: "read-only",
    takes: Takes::Flag,
    value: "",
    otherwise: "",
    help: "Reject requests that would change the disk, and write nothing",
};

const WORKERS: Argument = Argument {
    id: "workers",
    takes: Takes::Workers,
    value: "N",
    otherwise: "4",
    help: "Number of threads that serve requests, 1 to 16",
};

const FLUSH_EVERY: Argument = Argument {
    id: "flush-every",
    takes: Takes::Number,
    value: "SECONDS",
    otherwise: "5",
    help: "Store what was written after this time, even if the client does not flush; 0: only when it flushes",
};

const STATS: Argument = Argument {
    id: "stats",
    takes: Takes::Text,
    value: "FILE",
    otherwise: "",
    help: "Write counts of what was done to the new file FILE, as JSON",
};

const FOLDER: Argument = Argument {
    id: "folder",
    takes: Takes::Word,
    value: "FOLDER",
    otherwise: "",
    help: "A folder outside of the image",
};

const SHELL: Argument = Argument {
    id: "shell",
    takes: Takes::Shell,
    value: "SHELL",
    otherwise: "",
    help: "The shell",
};
