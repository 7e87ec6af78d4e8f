//! Completions for bash, as release/texts makes it.

pub const TEXT: &str = r##"# Completions of rusziveg for bash: rusziveg completions bash
_rusziveg() {
    local word=${COMP_WORDS[COMP_CWORD]} options i
    local commands='help format put append get cat rm mv cp ls clean check stat df map upgrade serve dump import completions manual'
    options='--quiet --wait --help --version'
    for ((i = 1; i < COMP_CWORD; i++)); do
        case ${COMP_WORDS[i]} in
            format) commands= options='--quiet --wait --shape --segments --per-section --files --nodes --help'; break ;;
            put) commands= options='--quiet --wait --no-clobber --help'; break ;;
            append) commands= options='--quiet --wait --help'; break ;;
            get) commands= options='--quiet --wait --number --offset --length --help'; break ;;
            cat) commands= options='--quiet --wait --help'; break ;;
            rm) commands= options='--quiet --wait --help'; break ;;
            mv) commands= options='--quiet --wait --help'; break ;;
            cp) commands= options='--quiet --wait --no-clobber --help'; break ;;
            ls) commands= options='--quiet --wait --json --help'; break ;;
            clean) commands= options='--quiet --wait --background --help'; break ;;
            check) commands= options='--quiet --wait --json --help'; break ;;
            stat) commands= options='--quiet --wait --json --help'; break ;;
            df) commands= options='--quiet --wait --json --help'; break ;;
            map) commands= options='--quiet --wait --svg --json --help'; break ;;
            upgrade) commands= options='--quiet --wait --help'; break ;;
            serve) commands= options='--quiet --wait --disk --size --read-only --workers --flush-every --stats --help'; break ;;
            dump) commands= options='--quiet --wait --help'; break ;;
            import) commands= options='--quiet --wait --help'; break ;;
            completions) commands= options='--quiet --wait --help'; break ;;
            manual) commands= options='--quiet --wait --help'; break ;;
        esac
    done
    case ${COMP_WORDS[COMP_CWORD-1]} in
        --shape) COMPREPLY=($(compgen -W 'kernel tiny' -- "$word")); return ;;
        completions) COMPREPLY=($(compgen -W 'bash zsh fish' -- "$word")); return ;;
    esac
    if [[ $word == -* ]]; then
        COMPREPLY=($(compgen -W "$options" -- "$word"))
    elif [[ -n $commands ]]; then
        COMPREPLY=($(compgen -W "$commands" -- "$word"))
    else
        COMPREPLY=($(compgen -f -- "$word"))
    fi
}
complete -o filenames -F _rusziveg rusziveg
"##;
