// No code: the judging of one polygon and of all polygons of the sheet, as definitions and theorems.
#![tactic(auto)]
