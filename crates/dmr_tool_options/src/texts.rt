//! What help says behind the options of each tool.

/// What help says behind the options of `show`.
pub(crate) const ABOUT_LISTINGS: &str =
    "A file is one of the four of a run, told by its first octets. Each burst or\n\
record has a line: seconds, frame and slot, and what it is; silence has none.\n\
The last line counts all that the file holds.\n\n\
The letters of a strip: . silence, H voice header, P PI header, A to F places\n\
of a superframe, v a voice burst in no place, T terminator, c CSBK, D data\n\
header, b data block, m multi block control or unified block, i idle,\n\
? unreadable. A list has no strip.\n\n\
Status 0: the file is whole; 1: it is at fault, which is told on standard error\n\
with the octet at which its record begins; 2: the command line.\n\n\
Example:\n  dmrgate show uplink.dmru --slot 1 --from 100 --to 199\n\n\
The files are described in docs/protocol.md.";

/// What help says behind the options of `log`.
pub(crate) const ABOUT_LOGS: &str =
    "What a repeater of this colour code repeats of a recording has a line for each\n\
transmission: when it begins and how many seconds it takes, its first frame, its\n\
slot, and what it is. Transmissions are calls, packets with the preambles in\n\
front of them, and rows of other control blocks. Lines stand in the order in\n\
which transmissions end. The last line counts all, whatever lines are asked for.\n\n\
A call has who calls whom, its places, filled ones among them, and how it ended:\n\
with a terminator; lost, where nothing is repeated behind it; cut, where another\n\
burst is; or with the end of the recording. It is late where it begins with a\n\
place. A packet has how many of its blocks came. [wrong: 21 of 263 bits] tells\n\
how many bits were wrong, of those that codes cover.\n\n\
--csv has a row for each line, behind one that names the columns. --html has a\n\
page for a browser or for paper: a picture of both slots for each minute, and a\n\
table of what ended in it. Where the recording is a pipe, each line is printed\n\
as soon as it is known, and each minute as soon as it is over.\n\n\
Status 0: the recording is whole; 1: it is at fault, which is told on standard\n\
error with the octet at which its record begins; 2: the command line.\n\n\
Example:\n  dmrgate log uplink.dmru --llid 1 --start 2026-01-31T12:00:00Z --csv\n\n\
The lines, the columns and the page are described in docs/protocol.md.";

/// What help says behind the options of `make`.
pub(crate) const ABOUT_SCRIPTS: &str =
    "A script has a statement a line. It names a slot, and then what is sent in it:\n\
what the listing says of a transmission, and behind a colon what the strip\n\
shows of it. # begins a remark. Of radio 2, which calls talk group 1 and is lost\n\
for a moment, and of radio 4, which sends a status in the other slot:\n\n\
\x20 colour 1\n\
\x20 slot 1\n\
\x20 group call 2 -> 1: H .. ABCDEF A..DEF T\n\
\x20 slot 2\n\
\x20 at 12\n\
\x20 status 4 -> 1, port 1 -> 2, status 5\n\
\x20 frames 40\n\n\
Between two transmissions stands what `silence N` or `at FRAME` say, and else\n\
the least silence that may. Each burst is the exact encoding of what is said.\n\
`send at FRAME, UDP 12.0.0.1:5016 -> 12.0.0.2:5018` is a datagram for the\n\
outgoing list of a run, which --outgoing names.\n\n\
Status 0: done, and the counts are in a line on standard output, or on standard\n\
error where a file goes to standard output; 1: a fault, which is told on\n\
standard error, of the script with the number of its line; 2: the command line.\n\
Of a script that is refused nothing is written.\n\n\
Example:\n  dmrgate make scene.txt - | dmrgate show - --strip\n\n\
The statements are described in docs/protocol.md.";

/// What help says behind the options of `damage`.
pub(crate) const ABOUT_DAMAGE: &str =
    "Without rates, damage stays within the limits of a repeater of this colour code.\n\
Each part of a burst that it repeats becomes the word that it reads as, with as\n\
many wrong bits as are sure to be undone. Vocoder bits stay, and so does all\n\
that no code covers. So a run writes the same downlink for both recordings.\n\n\
With --errors or --loss each bit of each burst is turned, and each burst is left\n\
out, with so many in 10000. Where one of both is given, the other is 0. Nothing\n\
is promised then of what a run makes of it: 500 errors are a bit error rate of\n\
5 %, at which sensitivity is measured.\n\n\
One seed gives one file. The last line counts frames, bursts, those that were\n\
changed, those that were left out, and bits that were turned. Where the input is\n\
a pipe, each frame is written as soon as it is decided.\n\n\
Status 0: done, and that line is on standard output, or on standard error where\n\
the recording goes to standard output; 1: a fault, which is told on standard\n\
error; 2: the command line.\n\n\
Example:\n  dmrgate damage uplink.dmru damaged.dmru --seed 7\n\n\
What is drawn, and in which order, is described in docs/protocol.md.";

/// What help says behind the options of `compare`.
pub(crate) const ABOUT_COMPARISONS: &str =
    "Two files of one kind are compared, slot by slot or record by record. Each place\n\
where they differ has two lines, which say what `dmrgate show` shows there, or\n\
`silence`. Brackets behind the second have how many bits of CACH and burst\n\
differ, or how many octets of a record. The last line counts places: those that\n\
are the same, those that differ, and those that one of the two has alone.\n\n\
A shift may be negative. Frames in front of those that are compared aren't\n\
counted. Lists have no shift. `--ignore` may be given twice: other repeaters\n\
announce calls otherwise, and some correct vocoder bits.\n\n\
Status 0: the files are the same, of what isn't ignored; 1: they differ; 2: the\n\
command line, or a file is at fault, which is told on standard error.\n\n\
Example:\n  dmrgate compare expected.dmrd got.dmrd --ignore cach\n\n\
The lines are described in docs/protocol.md.";

/// What help says behind the files of `export text`.
pub(crate) const ABOUT_EXPORTED_TEXTS: &str =
    "A file is one of the four of a run, told by its first octets. Its text has a\n\
first line, then a line for each burst or record, and a last line that counts\n\
frames or records. Silent slots have no line. `dmrgate import text --help`\n\
explains the lines, and that command makes the file again, octet for octet.\n\
Where the file is a pipe, each line is written as soon as it is known.\n\n\
Status 0: done, and frames and records are counted in a line on standard\n\
output, or on standard error where the text goes to standard output; 1: a\n\
fault, which is told on standard error, and the text of what stands before it\n\
is written; 2: the command line.\n\n\
Example:\n  dmrgate export text uplink.dmru - | grep \" 2 \"\n\n\
The text is described in docs/protocol.md.";

/// What help says behind the files of `import text`.
pub(crate) const ABOUT_IMPORTED_TEXTS: &str =
    "The first line is `dmrgate`, then `uplink`, `downlink`, `outgoing` or\n\
`received`, then 1. The last line is `frames N` of a recording, silence among\n\
them, or `records N` of a list. Each line between has a frame, a slot, and:\n\n\
\x20 uplink    a burst, of 66 hexadecimal digits\n\
\x20 downlink  a CACH, of 6 digits, and a burst\n\
\x20 outgoing  unconfirmed or confirmed, half or full, and octets\n\
\x20 received  datagram, short-data or status, the source, and octets\n\n\
Octets are hexadecimal digits, or - where there are none. Slots without a line\n\
are silent. Words are parted by spaces or tabs. Empty lines, lines that begin\n\
with # and carriage returns at the ends of lines are passed over. Where the\n\
text is a pipe, each record is written as soon as it is known.\n\n\
Status 0: done, and frames and records are counted in a line on standard\n\
output, or on standard error where the file goes to standard output; 1: a\n\
fault, which is told on standard error with the number of its line; 2: the\n\
command line.\n\n\
Example, of silence in frame 0, and a burst in slot 1 of frame 1:\n\
\x20 dmrgate uplink 1\n\
\x20 1 1 0062008201900100042004E004CD5D7F77FD757AC81800280250028000C0120022\n\
\x20 frames 2\n\n\
The text is described in docs/protocol.md.";

/// What help says behind the options of `export datagrams`.
pub(crate) const ABOUT_EXPORTED_DATAGRAMS: &str =
    "A received list is the one that a run writes. Each of its datagrams becomes a\n\
packet of the capture, octet for octet, in its order. Its time is when its frame\n\
began, and 30 ms later in slot 2, counted from --start, or else from 1970.\n\
Short data and statuses are no datagrams: they are counted, and left out.\n\
The capture is pcap, of link type 228, for Wireshark, tshark and tcpdump. Where\n\
the list is a pipe, each packet is written as soon as its record is there.\n\n\
Status 0: done, and the counts are in a line on standard output, or on standard\n\
error where the capture goes to standard output; 1: a fault, which is told on\n\
standard error, and the packets before it are written; 2: the command line.\n\n\
Example:\n  dmrgate export datagrams received.dmri - | tshark -r -\n\n\
The capture is described in docs/protocol.md.";

/// What help says behind the options of `import datagrams`.
pub(crate) const ABOUT_IMPORTED_DATAGRAMS: &str =
    "A capture is pcap or pcapng, told by its first octets, of link type 1, 101, 113,\n\
228 or 276. Each IPv4 packet whose destination begins with 12 or 225 becomes a\n\
record, with as many octets as it says. Others are counted, and left out. Its\n\
frame is the one that is asked for, and one more for each 60 ms since the first\n\
of them, but never less than that of the record before. A run judges datagrams,\n\
and counts those that it refuses. Where the capture is a pipe, each record is\n\
written as soon as its packet is there.\n\n\
Status 0: done, and the counts are in a line on standard output, or on standard\n\
error where the list goes to standard output; 1: a fault, which is told on\n\
standard error, and the records before it are written; 2: the command line.\n\n\
Example:\n  dmrgate import datagrams hosts.pcap outgoing.dmro --slot 1 --confirmed\n\n\
The list is described in docs/protocol.md.";

/// What help says behind the options of `import dmrd`.
pub(crate) const ABOUT_IMPORTED_PACKETS: &str =
    "A capture is pcap or pcapng, told by its first octets, of link type 1, 101, 113,\n\
228 or 276. Taken are packets of UDP that begin with DMRD: the protocol by which\n\
hotspots and repeaters carry bursts to their network, port 62031, and back. Each\n\
becomes a burst of an uplink recording. Those of other repeaters are counted,\n\
and left out.\n\n\
Each slot is placed alone, by streams, numbers and times. What was lost, and\n\
silence on the air, is silence. A packet behind a later one of its stream is\n\
late, and dropped. The counts are frames, bursts in each slot, numbers that were\n\
left out, late packets, and other packets. Nothing is written before the whole\n\
capture was read.\n\n\
What a duplex repeater sends to its network has the sync words of a base\n\
station, of which a run repeats nothing. With --as-uplink they become those of a\n\
mobile.\n\n\
Status 0: done, and the counts are in a line on standard output, or on standard\n\
error where the recording goes to standard output; 1: a fault, which is told on\n\
standard error, and nothing is written; 2: the command line.\n\n\
Example:\n  dmrgate import dmrd hotspot.pcap uplink.dmru --as-uplink\n\n\
The rule is described in docs/protocol.md.";

/// What help says behind the options of `export dmrd`.
pub(crate) const ABOUT_EXPORTED_PACKETS: &str =
    "A downlink is the one that a run writes. Each of its bursts that is repeated,\n\
which its CACH says, becomes a packet of UDP that begins with DMRD: the protocol\n\
by which repeaters carry bursts to their network, port 62031. They go from\n\
192.0.2.1 to 192.0.2.2. Other bursts are counted, and left out.\n\n\
A stream is what `dmrgate log` calls a transmission. Streams are numbered from\n\
1 on, and packets by their frames in it from 0, so that a lost block leaves a\n\
number out. All packets of a stream have its addresses, those of a late call\n\
from its first superframe, or zeros where there are none. A packet's time is\n\
when its frame began, and 30 ms later in slot 2, counted from --start, or else\n\
from 1970. The capture is pcap, of link type 228, for Wireshark, tshark and\n\
tcpdump. Where the downlink is a pipe, each packet is written four frames later.\n\n\
Status 0: done, and the counts are in a line on standard output, or on standard\n\
error where the capture goes to standard output; 1: a fault, which is told on\n\
standard error, and the packets before it are written; 2: the command line.\n\n\
Example:\n  dmrgate export dmrd downlink.dmrd - --repeater 262001 | tshark -r -\n\n\
The capture is described in docs/protocol.md.";
