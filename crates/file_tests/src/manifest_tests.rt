// Tests of `manifest`: manifests as an office may export them, ballots that are linked to their cards, and what is refused.
mod largest;
mod linking;
mod reading;
mod refused;
