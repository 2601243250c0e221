//! The texts for `--help`, for `--version` and for wrong arguments.

/// The text that `--help` prints.
pub const HELP: &str = "\
stun_inspect decode [FILE]                      messages, attribute by attribute
stun_inspect list [FILE]                        messages, one in each line
stun_inspect verify PASSWORD [FILE]             their integrity under a password
stun_inspect verify NAME REALM PASSWORD [FILE]  their integrity under a long-term key
stun_inspect key sha1|sha256 NAME REALM PASSWORD
stun_inspect userhash NAME REALM
stun_inspect nonce NONCE                        the security bits of a nonce
FILE, or standard input without one, is a capture (pcap, pcapng), or has a message:
raw, in hexadecimal, in base64, one message a line, or dumped by xxd, hexdump -Cv,
od -v -A x -t x1, tcpdump -x, tshark -x or Wireshark. The password - is the first
line of standard input.
Status: 0 good, 1 not a message, invalid or none signed, 2 not judged or not read
to the end.
";

/// The text that `--version` prints.
pub const VERSION: &str = "stun_inspect 0.3.0\n";

/// Returns the usage that is printed for wrong arguments: the usage of the command that they begin
/// with, or the usage of all commands.
pub fn usage_of(words: &[String]) -> &'static str {
    let Some(command) = words.first() else {
        return ALL;
    };
    match command.as_str() {
        "decode" => "usage: stun_inspect decode [FILE]\n",
        "list" => "usage: stun_inspect list [FILE]\n",
        "verify" => "usage: stun_inspect verify [NAME REALM] PASSWORD [FILE]\n",
        "key" => "usage: stun_inspect key sha1|sha256 NAME REALM PASSWORD\n",
        "userhash" => "usage: stun_inspect userhash NAME REALM\n",
        "nonce" => "usage: stun_inspect nonce NONCE\n",
        _ => ALL,
    }
}

/// The usage of all commands.
const ALL: &str = "usage: stun_inspect decode|list|verify|key|userhash|nonce ..; -h tells more\n";
