//! A worked text that tests of several crates share, and the report of it, found from the definitions.

/// Message 1 goes from 1 to 2, which receives three times, but never that message.
pub const NEVER_DELIVERED: &str =
    "dls-trace,1,2,0\ninit,5,7\n1,1,S,2\n2,2,R,\n3,1,S,2\n4,2,R,3\n5,2,R,\nend,5\n";

/// The report of never-delivered if both processors are correct.
pub const NEVER_DELIVERED_REPORT: &str =
    "gst,delta,phi,sent,missed,proc,from,to\n1,5,3,1,5,1,4,5\n2,1,3,,,1,4,5\n5,1,2,,,1,5,5\n";
