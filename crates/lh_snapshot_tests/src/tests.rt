//! Calls, with an answer and without one, snapshots and scans: beside calls that are held, in a crowd, and where memory
//! is refused. Each scene is played in an untraced file and in a traced one.
mod calls;
mod crowd;
mod lean;
mod locks;
mod looks;
mod memory;
mod moments;
mod points;
mod rights;
mod scans;
mod scene;
mod sizes;
mod sound;
mod stage;
mod stamps;
mod tasks;
mod threads;
mod visits;
mod words;
