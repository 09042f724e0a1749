// Worked cases of refused memory. Each test makes a refused call again until it succeeds, so it holds whichever requests
// `tools/refuse_memory scc_vectors::refused` refuses.
mod cache;
mod cache_texts;
mod finishing;
mod map;
mod opened;
mod recorded;
mod texts;
