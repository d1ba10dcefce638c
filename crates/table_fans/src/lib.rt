// No code: no two triangles of a table overlap round a corner, and a side with no reverse lies on the frame.
#![tactic(auto)]
