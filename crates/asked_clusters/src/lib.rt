// Clusters of what is stored, normal buckets, and their answers as words.
#![tactic(auto)]

mod ask;
mod words;

pub use ask::clusters;
pub use clusters::Cut;
pub use words::bucket;
