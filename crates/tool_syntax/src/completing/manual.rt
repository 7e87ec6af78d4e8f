//! The manual page, as release/texts makes it.

pub const TEXT: &str = r##".TH RUSZIVEG 1 "" "rusziveg 0.1.0"
.SH NAME
rusziveg \- Keeps named files, or a disk for NBD clients, in a flash volume, which is stored in an image file.
.SH SYNOPSIS
.B rusziveg
command image ...
.SH DESCRIPTION
.nf
\&Keeps named files, or a disk for NBD clients, in a flash volume, which is stored in an image file.
\&
\&Usage: rusziveg [OPTIONS] <COMMAND>
\&
\&Commands:
\&  format       Make a new image file with an empty volume
\&  put          Store standard input, or FILE, as the file NAME
\&  append       Add standard input, or FILE, to the end of the file NAME
\&  get          Write the bytes of a file to standard output, or to FILE
\&  cat          Write the bytes of files to standard output, one after the other
\&  rm           Remove files
\&  mv           Rename the file NAME
\&  cp           Copy the file NAME to another name
\&  ls           List the files, with their sizes and numbers
\&  clean        Move the valid blocks out of partly filled sections, to make free segments
\&  check        Print whether the image is sound, or its exact fault
\&  stat         Print the volume's version, and its counts of blocks, segments, files and nodes
\&  df           Print how many bytes are usable, used, free, and kept for cleaning
\&  map          Draw each segment: how full it is, its log, its age
\&  upgrade      Copy the volume, of any format, into a new image file of format 3
\&  serve        Serve a disk to one NBD client over standard input and output, until the client leaves
\&  dump         Write each file into FOLDER, under its name, or its number where it has no name
\&  import       Store each regular file of FOLDER under its name; folders, links and pipes are skipped, with status 1
\&  completions  Print a shell's completions, for its folder of completions
\&  manual       Print the manual page, for man
\&  help         Print this message or the help of the given subcommand(s)
\&
\&Options:
\&  \-q, \-\-quiet           Print errors only, no reports of success and no progress
\&      \-\-wait <SECONDS>  How long to wait for an image that another program has open [default: 1]
\&  \-h, \-\-help            Print help
\&  \-V, \-\-version         Print version
\&
\&Exit status: 0: success; 1: a volume, image, name or number was rejected; 2: the command line was wrong; 4: a file, stream or memory failed.
.fi
.SH COMMANDS
.SS format
.nf
\&Make a new image file with an empty volume
\&
\&Usage: rusziveg format [OPTIONS] <IMAGE>
\&
\&Arguments:
\&  <IMAGE>  The image file
\&
\&Options:
\&  \-q, \-\-quiet            Print errors only, no reports of success and no progress
\&      \-\-shape <SHAPE>    kernel: 512 blocks of 4096 bytes a segment; tiny: 8 blocks of 64 bytes [default: kernel] [possible values: kernel, tiny]
\&      \-\-segments <N>     Number of segments, 16 to 4096 [default: 32]
\&      \-\-wait <SECONDS>   How long to wait for an image that another program has open [default: 1]
\&      \-\-per\-section <N>  Segments per section, the unit of cleaning, 1 to 16 [default: 1]
\&      \-\-files <N>        Maximum number of files, 1 to 1024; the folder of names is one of them [default: 256]
\&      \-\-nodes <N>        Maximum number of nodes, from the number of files to 65536 [default: 2048]
\&  \-h, \-\-help             Print help
.fi
.SS put
.nf
\&Store standard input, or FILE, as the file NAME
\&
\&Usage: rusziveg put [OPTIONS] <IMAGE> <NAME> [FILE]
\&
\&Arguments:
\&  <IMAGE>  The image file
\&  <NAME>   The file's name on the volume
\&  [FILE]   A file to read instead of standard input
\&
\&Options:
\&      \-\-no\-clobber      Do not replace a file of that name: fail instead
\&  \-q, \-\-quiet           Print errors only, no reports of success and no progress
\&      \-\-wait <SECONDS>  How long to wait for an image that another program has open [default: 1]
\&  \-h, \-\-help            Print help
.fi
.SS append
.nf
\&Add standard input, or FILE, to the end of the file NAME
\&
\&Usage: rusziveg append [OPTIONS] <IMAGE> <NAME> [FILE]
\&
\&Arguments:
\&  <IMAGE>  The image file
\&  <NAME>   The file's name on the volume
\&  [FILE]   A file to read instead of standard input
\&
\&Options:
\&  \-q, \-\-quiet           Print errors only, no reports of success and no progress
\&      \-\-wait <SECONDS>  How long to wait for an image that another program has open [default: 1]
\&  \-h, \-\-help            Print help
.fi
.SS get
.nf
\&Write the bytes of a file to standard output, or to FILE
\&
\&Usage: rusziveg get [OPTIONS] <IMAGE> [NAME] [FILE]
\&
\&Arguments:
\&  <IMAGE>  The image file
\&  [NAME]   The file's name on the volume
\&  [FILE]   A new file to write instead of standard output
\&
\&Options:
\&      \-\-number <N>      The file's number, instead of a name; writes whole blocks
\&  \-q, \-\-quiet           Print errors only, no reports of success and no progress
\&      \-\-offset <BYTES>  Skip the first BYTES bytes
\&      \-\-wait <SECONDS>  How long to wait for an image that another program has open [default: 1]
\&      \-\-length <BYTES>  Write at most BYTES bytes
\&  \-h, \-\-help            Print help
.fi
.SS cat
.nf
\&Write the bytes of files to standard output, one after the other
\&
\&Usage: rusziveg cat [OPTIONS] <IMAGE> <NAME>...
\&
\&Arguments:
\&  <IMAGE>    The image file
\&  <NAME>...  The files' names on the volume
\&
\&Options:
\&  \-q, \-\-quiet           Print errors only, no reports of success and no progress
\&      \-\-wait <SECONDS>  How long to wait for an image that another program has open [default: 1]
\&  \-h, \-\-help            Print help
.fi
.SS rm
.nf
\&Remove files
\&
\&Usage: rusziveg rm [OPTIONS] <IMAGE> <NAME>...
\&
\&Arguments:
\&  <IMAGE>    The image file
\&  <NAME>...  The files' names on the volume
\&
\&Options:
\&  \-q, \-\-quiet           Print errors only, no reports of success and no progress
\&      \-\-wait <SECONDS>  How long to wait for an image that another program has open [default: 1]
\&  \-h, \-\-help            Print help
.fi
.SS mv
.nf
\&Rename the file NAME
\&
\&Usage: rusziveg mv [OPTIONS] <IMAGE> <NAME> <NEW>
\&
\&Arguments:
\&  <IMAGE>  The image file
\&  <NAME>   The file's name on the volume
\&  <NEW>    The new name, which no other file may have
\&
\&Options:
\&  \-q, \-\-quiet           Print errors only, no reports of success and no progress
\&      \-\-wait <SECONDS>  How long to wait for an image that another program has open [default: 1]
\&  \-h, \-\-help            Print help
.fi
.SS cp
.nf
\&Copy the file NAME to another name
\&
\&Usage: rusziveg cp [OPTIONS] <IMAGE> <NAME> <NEW>
\&
\&Arguments:
\&  <IMAGE>  The image file
\&  <NAME>   The file's name on the volume
\&  <NEW>    The copy's name
\&
\&Options:
\&      \-\-no\-clobber      Do not replace a file of that name: fail instead
\&  \-q, \-\-quiet           Print errors only, no reports of success and no progress
\&      \-\-wait <SECONDS>  How long to wait for an image that another program has open [default: 1]
\&  \-h, \-\-help            Print help
.fi
.SS ls
.nf
\&List the files, with their sizes and numbers
\&
\&Usage: rusziveg ls [OPTIONS] <IMAGE>
\&
\&Arguments:
\&  <IMAGE>  The image file
\&
\&Options:
\&      \-\-json            Print JSON
\&  \-q, \-\-quiet           Print errors only, no reports of success and no progress
\&      \-\-wait <SECONDS>  How long to wait for an image that another program has open [default: 1]
\&  \-h, \-\-help            Print help
.fi
.SS clean
.nf
\&Move the valid blocks out of partly filled sections, to make free segments
\&
\&Usage: rusziveg clean [OPTIONS] <IMAGE>
\&
\&Arguments:
\&  <IMAGE>  The image file
\&
\&Options:
\&      \-\-background      Clean one section only, chosen by its cost, benefit and age
\&  \-q, \-\-quiet           Print errors only, no reports of success and no progress
\&      \-\-wait <SECONDS>  How long to wait for an image that another program has open [default: 1]
\&  \-h, \-\-help            Print help
.fi
.SS check
.nf
\&Print whether the image is sound, or its exact fault
\&
\&Usage: rusziveg check [OPTIONS] <IMAGE>
\&
\&Arguments:
\&  <IMAGE>  The image file
\&
\&Options:
\&      \-\-json            Print JSON
\&  \-q, \-\-quiet           Print errors only, no reports of success and no progress
\&      \-\-wait <SECONDS>  How long to wait for an image that another program has open [default: 1]
\&  \-h, \-\-help            Print help
.fi
.SS stat
.nf
\&Print the volume's version, and its counts of blocks, segments, files and nodes
\&
\&Usage: rusziveg stat [OPTIONS] <IMAGE>
\&
\&Arguments:
\&  <IMAGE>  The image file
\&
\&Options:
\&      \-\-json            Print JSON
\&  \-q, \-\-quiet           Print errors only, no reports of success and no progress
\&      \-\-wait <SECONDS>  How long to wait for an image that another program has open [default: 1]
\&  \-h, \-\-help            Print help
.fi
.SS df
.nf
\&Print how many bytes are usable, used, free, and kept for cleaning
\&
\&Usage: rusziveg df [OPTIONS] <IMAGE>
\&
\&Arguments:
\&  <IMAGE>  The image file
\&
\&Options:
\&      \-\-json            Print JSON
\&  \-q, \-\-quiet           Print errors only, no reports of success and no progress
\&      \-\-wait <SECONDS>  How long to wait for an image that another program has open [default: 1]
\&  \-h, \-\-help            Print help
.fi
.SS map
.nf
\&Draw each segment: how full it is, its log, its age
\&
\&Usage: rusziveg map [OPTIONS] <IMAGE>
\&
\&Arguments:
\&  <IMAGE>  The image file
\&
\&Options:
\&  \-q, \-\-quiet           Print errors only, no reports of success and no progress
\&      \-\-svg <FILE>      Write a picture (SVG) to the new file FILE
\&      \-\-json            Print JSON
\&      \-\-wait <SECONDS>  How long to wait for an image that another program has open [default: 1]
\&  \-h, \-\-help            Print help
.fi
.SS upgrade
.nf
\&Copy the volume, of any format, into a new image file of format 3
\&
\&Usage: rusziveg upgrade [OPTIONS] <IMAGE> <NEW>
\&
\&Arguments:
\&  <IMAGE>  The image file
\&  <NEW>    The new image file, which must not exist
\&
\&Options:
\&  \-q, \-\-quiet           Print errors only, no reports of success and no progress
\&      \-\-wait <SECONDS>  How long to wait for an image that another program has open [default: 1]
\&  \-h, \-\-help            Print help
.fi
.SS serve
.nf
\&Serve a disk to one NBD client over standard input and output, until the client leaves
\&
\&Usage: rusziveg serve [OPTIONS] <IMAGE>
\&
\&Arguments:
\&  <IMAGE>  The image file
\&
\&Options:
\&      \-\-disk <NAME>            The disk's name; the files NAME.00, NAME.01 and so on hold its data [default: disk]
\&  \-q, \-\-quiet                  Print errors only, no reports of success and no progress
\&      \-\-size <BYTES>           The disk's size; makes the disk if there is none of that name
\&      \-\-wait <SECONDS>         How long to wait for an image that another program has open [default: 1]
\&      \-\-read\-only              Reject requests that would change the disk, and write nothing
\&      \-\-workers <N>            Number of threads that serve requests, 1 to 16 [default: 4]
\&      \-\-flush\-every <SECONDS>  Store what was written after this time, even if the client does not flush; 0: only when it flushes [default: 5]
\&      \-\-stats <FILE>           Write counts of what was done to the new file FILE, as JSON
\&  \-h, \-\-help                   Print help
.fi
.SS dump
.nf
\&Write each file into FOLDER, under its name, or its number where it has no name
\&
\&Usage: rusziveg dump [OPTIONS] <IMAGE> <FOLDER>
\&
\&Arguments:
\&  <IMAGE>   The image file
\&  <FOLDER>  A folder outside of the image
\&
\&Options:
\&  \-q, \-\-quiet           Print errors only, no reports of success and no progress
\&      \-\-wait <SECONDS>  How long to wait for an image that another program has open [default: 1]
\&  \-h, \-\-help            Print help
.fi
.SS import
.nf
\&Store each regular file of FOLDER under its name; folders, links and pipes are skipped, with status 1
\&
\&Usage: rusziveg import [OPTIONS] <IMAGE> <FOLDER>
\&
\&Arguments:
\&  <IMAGE>   The image file
\&  <FOLDER>  A folder outside of the image
\&
\&Options:
\&  \-q, \-\-quiet           Print errors only, no reports of success and no progress
\&      \-\-wait <SECONDS>  How long to wait for an image that another program has open [default: 1]
\&  \-h, \-\-help            Print help
.fi
.SS completions
.nf
\&Print a shell's completions, for its folder of completions
\&
\&Usage: rusziveg completions [OPTIONS] <SHELL>
\&
\&Arguments:
\&  <SHELL>  The shell [possible values: bash, zsh, fish]
\&
\&Options:
\&  \-q, \-\-quiet           Print errors only, no reports of success and no progress
\&      \-\-wait <SECONDS>  How long to wait for an image that another program has open [default: 1]
\&  \-h, \-\-help            Print help
.fi
.SS manual
.nf
\&Print the manual page, for man
\&
\&Usage: rusziveg manual [OPTIONS]
\&
\&Options:
\&  \-q, \-\-quiet           Print errors only, no reports of success and no progress
\&      \-\-wait <SECONDS>  How long to wait for an image that another program has open [default: 1]
\&  \-h, \-\-help            Print help
.fi
.SH TERMS
.TP
.B block
4096 bytes (64 in the shape tiny).
.TP
.B segment
512 neighbouring blocks (8 in the shape tiny). A free segment has no valid block.
.TP
.B section
One segment or several (\-\-per\-section); the unit that clean empties.
.TP
.B node
A block that lists the blocks of one file: its inode, or a block of further addresses.
.TP
.B checkpoint
The volume's tables as they are stored at one moment. A mount begins with the newest whole checkpoint.
.SH EXAMPLES
.TP
.B rusziveg format disk.img
Make a volume of 64 MB.
.TP
.B rusziveg put disk.img notes notes.txt
Store the file notes.txt under the name notes.
.TP
.B tar c src | rusziveg put disk.img src.tar
Store what a program prints.
.TP
.B rusziveg get disk.img notes | less
Read it.
.TP
.B rusziveg import disk.img folder
Store each regular file of a folder.
.TP
.B rusziveg check disk.img \-\-quiet && cp disk.img copy.img
Copy the image if it is sound. Never copy an image while a program has it open: the copy may be of no one moment.
.TP
.B systemd\-socket\-activate \-\-accept \-\-inetd \-l $PWD/disk.sock rusziveg serve disk.img \-\-size 16777216
Serve a disk of 16 MB to NBD clients, one after the other, on the socket disk.sock in the present folder.
.SH FILES
.TP
.B IMAGE
A regular file: superblock, checkpoints, then the blocks. format makes it as long as the volume; blocks that were never written take no space on the disk below. Each command locks it as flock(2) does, while it has it open.
.TP
.B NAME.00 to NAME.15
The files of the volume that hold the data of the disk NAME, which serve made.
.TP
.B NEW.0.new
Beside NEW: what a killed upgrade had written. It can be removed.
.SH CRASHES
.PP
A command that changes files stores one checkpoint when its work is done. If it is killed before, or the machine stops, the next command finds the files as they were before, or as they were to become, and nothing between. There are these exceptions. rm stores a checkpoint for each file, so some files may be removed and others not; where the volume is nearly full, a file may be removed and its name be left, which ls shows, and another rm takes away. import may store its files in several checkpoints. serve keeps what the client flushed, and what was written before the last checkpoint that \-\-flush\-every asked for; of later writes it may keep any part. A killed format may leave a file that is not an image, which can be removed. A killed get or dump may leave a part of the file that it was writing.
.PP
A disk that loses writes which it has acknowledged as synced, or changes bytes by itself, can spoil a volume: data have no checksums. check finds damage of the tables and nodes only.
"##;
