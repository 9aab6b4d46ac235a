// A fixture's job and its lamp, request m of document 02, as definitions in specs/: the sheets, the filing and reading, the light.

#![tactic(auto)]
