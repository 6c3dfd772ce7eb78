// Bilinear interpolation over one grid of sixteen numbers: definitions and laws. It has no code.
#![tactic(auto)]
