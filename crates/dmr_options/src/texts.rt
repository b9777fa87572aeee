//! The version, and what help says behind the options of `run` and of `slot`.

/// The version that each program prints.
pub(crate) const VERSION: &str = "0.3.0";

/// What help says behind the options of `run`.
pub(crate) const ABOUT_RUNS: &str =
    "A frame is slot 1 and slot 2, 60 ms. The downlink is six frames behind the\n\
uplink. A call hang and a channel hang have 0 to 65535 frames, the call hang at\n\
most as many as the channel hang. No output may be another file of the run.\n\
Where an input is a pipe, each frame is written as soon as it is decided.\n\n\
Status 0: done, and the numbers of the run are printed, to standard error where\n\
a file goes to standard output; 1: a fault, which is told on standard error;\n\
2: the command line. With --verbose one more line on standard error has the\n\
file, the octet, the frame and the slot of a fault, and the system's reason;\n\
or, where nothing is repeated, what was heard.\n\n\
Example:\n  dmrgate run --uplink in.dmru --downlink out.dmrd --llid 1\n\n\
The files are described in docs/protocol.md.";

/// What help says behind the options of `slot`.
pub(crate) const ABOUT_SLOTS: &str =
    "Example:\n dmrgate slot 53C25EABA8671DC7383BD936065DFF57D75DF5D92BF6E465171B48CA6D4FC610B4";
