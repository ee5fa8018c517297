//! What `pdpd --help` and `pdpd --version` answer.

/// What `pdpd --version` answers. The first line is the name and the number, and others read it.
pub const VERSION: &str = "pdpd 0.1
XACML 3.0, by its JSON Profile 1.1; a store of schema 2, to which one of schema 1 is converted";

/// What `pdpd --help` answers.
pub const HELP: &str = "pdpd: policy administration and decisions (XACML 3.0), over HTTP

  pdpd listen DATABASE ADDRESS TOKEN-FILE [CHANGES-ADDRESS]
      serves connections, 64 at once, over the store in the file DATABASE, which is made if it
      isn't there. ADDRESS: an IP address, `:` and a port; or `unix:` and the path of a socket.
      TOKEN-FILE: its first line is the operator's token, 8 to 64 visible ASCII characters.
      It prints `listening ADDRESS` once connections are taken, and ends by a signal.
      PDPD_WORK in the environment limits the work for a decision request, PDPD_REPLY the bytes of
      its response, and PDPD_READING the bytes of policies that are read for it. PDPD_IDLE ends a
      connection that gives no first byte of a message for so many seconds, and PDPD_MESSAGE one
      whose message isn't whole so many seconds after that. For each of these 0 is no limit.
      PDPD_VIEWS limits the memory for cached views of domains, in bytes (0: none is cached).
      With PDPD_SUMS 0 a new file has no sums that tell of its damage. With PDPD_END `input` it
      ends when its standard input ends, after what is under way is answered.
      With CHANGES-ADDRESS a message that asks for a change is answered there alone, on one
      connection at a time; at ADDRESS it gets 503.
  pdpd serve DATABASE ADDRESS TOKEN-FILE CONNECTIONS
      serves that many connections (1 to 1000000), one after another. ADDRESS: an IP address, `:`
      and a port. PDPD_IDLE ends a connection that gives or takes nothing for so many seconds.
      PDPD_MESSAGE and PDPD_END aren't looked at.
  pdpd replay OPERATOR-TOKEN
      answers the transcript on standard input, over a store in memory.
  pdpd --help, pdpd --version

Exit statuses: 0 done; 1 standard input or output failed; 2 usage, or the address, a setting or the
token is malformed, or the token file can't be read; 3 the transcript is malformed or cut; 4 store;
5 socket or clock; 6 memory.";
