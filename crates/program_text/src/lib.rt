// The program's text: what `wall` prints is a function of the bytes of its input, and what the calls of `stream` write,
// however the input is cut into parts, is that text. No code: specs/Text.antt has the function, specs/Streamed.antt
// states the theorem, proofs/Streams.antt proves it.
#![tactic(auto)]
