//! Completions for zsh, as release/texts makes it.

pub const TEXT: &str = r##"#compdef rusziveg
# Completions of rusziveg for zsh: rusziveg completions zsh
_rusziveg() {
    local state
    local -a line commands=(
        'format:Make a new image file with an empty volume'
        'put:Store standard input, or FILE, as the file NAME'
        'append:Add standard input, or FILE, to the end of the file NAME'
        'get:Write the bytes of a file to standard output, or to FILE'
        'cat:Write the bytes of files to standard output, one after the other'
        'rm:Remove files'
        'mv:Rename the file NAME'
        'cp:Copy the file NAME to another name'
        'ls:List the files, with their sizes and numbers'
        'clean:Move the valid blocks out of partly filled sections, to make free segments'
        'check:Print whether the image is sound, or its exact fault'
        'stat:Print the volume'\''s version, and its counts of blocks, segments, files and nodes'
        'df:Print how many bytes are usable, used, free, and kept for cleaning'
        'map:Draw each segment: how full it is, its log, its age'
        'upgrade:Copy the volume, of any format, into a new image file of format 3'
        'serve:Serve a disk to one NBD client over standard input and output, until the client leaves'
        'dump:Write each file into FOLDER, under its name, or its number where it has no name'
        'import:Store each regular file of FOLDER under its name; folders, links and pipes are skipped, with status 1'
        'completions:Print a shell'\''s completions, for its folder of completions'
        'manual:Print the manual page, for man'
        'help:Prints help'
    )
    _arguments -C \
            '--quiet[Print errors only, no reports of success and no progress]' \
            '--wait[How long to wait for an image that another program has open]:wait:()' \
            '--help[Prints help]' \
            '--version[Prints the version]' \
            ':command:->command' '*::argument:->argument'
    case $state in
        command) _describe command commands; return ;;
        argument) ;;
        *) return ;;
    esac
    case ${words[1]} in
        format) _arguments \
            '--quiet[Print errors only, no reports of success and no progress]' \
            '--wait[How long to wait for an image that another program has open]:wait:()' \
            '--help[Prints help]' \
            '--shape[kernel: 512 blocks of 4096 bytes a segment; tiny: 8 blocks of 64 bytes]:shape:(kernel tiny)' \
            '--segments[Number of segments, 16 to 4096]:segments:()' \
            '--per-section[Segments per section, the unit of cleaning, 1 to 16]:per-section:()' \
            '--files[Maximum number of files, 1 to 1024; the folder of names is one of them]:files:()' \
            '--nodes[Maximum number of nodes, from the number of files to 65536]:nodes:()' \
            '*:file:_files' ;;
        put) _arguments \
            '--quiet[Print errors only, no reports of success and no progress]' \
            '--wait[How long to wait for an image that another program has open]:wait:()' \
            '--help[Prints help]' \
            '--no-clobber[Do not replace a file of that name: fail instead]' \
            '*:file:_files' ;;
        append) _arguments \
            '--quiet[Print errors only, no reports of success and no progress]' \
            '--wait[How long to wait for an image that another program has open]:wait:()' \
            '--help[Prints help]' \
            '*:file:_files' ;;
        get) _arguments \
            '--quiet[Print errors only, no reports of success and no progress]' \
            '--wait[How long to wait for an image that another program has open]:wait:()' \
            '--help[Prints help]' \
            '--number[The file'\''s number, instead of a name; writes whole blocks]:number:()' \
            '--offset[Skip the first BYTES bytes]:offset:()' \
            '--length[Write at most BYTES bytes]:length:()' \
            '*:file:_files' ;;
        cat) _arguments \
            '--quiet[Print errors only, no reports of success and no progress]' \
            '--wait[How long to wait for an image that another program has open]:wait:()' \
            '--help[Prints help]' \
            '*:file:_files' ;;
        rm) _arguments \
            '--quiet[Print errors only, no reports of success and no progress]' \
            '--wait[How long to wait for an image that another program has open]:wait:()' \
            '--help[Prints help]' \
            '*:file:_files' ;;
        mv) _arguments \
            '--quiet[Print errors only, no reports of success and no progress]' \
            '--wait[How long to wait for an image that another program has open]:wait:()' \
            '--help[Prints help]' \
            '*:file:_files' ;;
        cp) _arguments \
            '--quiet[Print errors only, no reports of success and no progress]' \
            '--wait[How long to wait for an image that another program has open]:wait:()' \
            '--help[Prints help]' \
            '--no-clobber[Do not replace a file of that name: fail instead]' \
            '*:file:_files' ;;
        ls) _arguments \
            '--quiet[Print errors only, no reports of success and no progress]' \
            '--wait[How long to wait for an image that another program has open]:wait:()' \
            '--help[Prints help]' \
            '--json[Print JSON]' \
            '*:file:_files' ;;
        clean) _arguments \
            '--quiet[Print errors only, no reports of success and no progress]' \
            '--wait[How long to wait for an image that another program has open]:wait:()' \
            '--help[Prints help]' \
            '--background[Clean one section only, chosen by its cost, benefit and age]' \
            '*:file:_files' ;;
        check) _arguments \
            '--quiet[Print errors only, no reports of success and no progress]' \
            '--wait[How long to wait for an image that another program has open]:wait:()' \
            '--help[Prints help]' \
            '--json[Print JSON]' \
            '*:file:_files' ;;
        stat) _arguments \
            '--quiet[Print errors only, no reports of success and no progress]' \
            '--wait[How long to wait for an image that another program has open]:wait:()' \
            '--help[Prints help]' \
            '--json[Print JSON]' \
            '*:file:_files' ;;
        df) _arguments \
            '--quiet[Print errors only, no reports of success and no progress]' \
            '--wait[How long to wait for an image that another program has open]:wait:()' \
            '--help[Prints help]' \
            '--json[Print JSON]' \
            '*:file:_files' ;;
        map) _arguments \
            '--quiet[Print errors only, no reports of success and no progress]' \
            '--wait[How long to wait for an image that another program has open]:wait:()' \
            '--help[Prints help]' \
            '--svg[Write a picture (SVG) to the new file FILE]:svg:_files' \
            '--json[Print JSON]' \
            '*:file:_files' ;;
        upgrade) _arguments \
            '--quiet[Print errors only, no reports of success and no progress]' \
            '--wait[How long to wait for an image that another program has open]:wait:()' \
            '--help[Prints help]' \
            '*:file:_files' ;;
        serve) _arguments \
            '--quiet[Print errors only, no reports of success and no progress]' \
            '--wait[How long to wait for an image that another program has open]:wait:()' \
            '--help[Prints help]' \
            '--disk[The disk'\''s name; the files NAME.00, NAME.01 and so on hold its data]:disk:_files' \
            '--size[The disk'\''s size; makes the disk if there is none of that name]:size:()' \
            '--read-only[Reject requests that would change the disk, and write nothing]' \
            '--workers[Number of threads that serve requests, 1 to 16]:workers:()' \
            '--flush-every[Store what was written after this time, even if the client does not flush; 0: only when it flushes]:flush-every:()' \
            '--stats[Write counts of what was done to the new file FILE, as JSON]:stats:_files' \
            '*:file:_files' ;;
        dump) _arguments \
            '--quiet[Print errors only, no reports of success and no progress]' \
            '--wait[How long to wait for an image that another program has open]:wait:()' \
            '--help[Prints help]' \
            '*:file:_files' ;;
        import) _arguments \
            '--quiet[Print errors only, no reports of success and no progress]' \
            '--wait[How long to wait for an image that another program has open]:wait:()' \
            '--help[Prints help]' \
            '*:file:_files' ;;
        completions) _arguments \
            '--quiet[Print errors only, no reports of success and no progress]' \
            '--wait[How long to wait for an image that another program has open]:wait:()' \
            '--help[Prints help]' \
            ':word:(bash zsh fish)' ;;
        manual) _arguments \
            '--quiet[Print errors only, no reports of success and no progress]' \
            '--wait[How long to wait for an image that another program has open]:wait:()' \
            '--help[Prints help]' \
            ;;
        help) _describe command commands ;;
    esac
}
if [[ ${funcstack[1]} = _rusziveg ]]; then _rusziveg "$@"; else compdef _rusziveg rusziveg; fi
"##;
