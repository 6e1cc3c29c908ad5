//! What no contract says: calls that are held at a point while others go on, the points that calls pass, and eight threads
//! that let each other go first at every point.
mod crowd;
mod ended;
mod gates;
mod play;
mod stage;
mod traced;
