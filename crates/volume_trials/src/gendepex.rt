// Expressions and what GenDepex of EDK2 2022.11 (`BaseTools/Source/Python/AutoGen/GenDepex.py`) makes of them. A digit means a GUID in both; the opcodes are
// `&` AND, `|` OR, `!` NOT, `T` TRUE, `F` FALSE, `S` SOR, `<` BEFORE, `>` AFTER and `.` END. Keywords are in several cases, which GenDepex was given in upper
// case.

/// A line an expression: the phase of its module, its words, and after a colon its opcodes.
pub static SPELLINGS: &str = "\
pei 2 AND 3: 23&.\n\
dxe (4) OR 1 END: 41|.\n\
pei not 6: 6!.\n\
dxe 2 Or Not ( 6 And 4 ) End: 264&!|.\n\
pei 5 AND 4: 54&.\n\
dxe NOT 5 AND ( 1 ) AND ( ( 5 ) OR 4 AND FALSE ): 5!154F&|&&.\n\
pei 3 And 3 End: 33&.\n\
dxe not not false and 6: F!!6&.\n\
dxe 2 AND NOT 4: 24!&.\n\
pei NOT (4 AND 5) END: 45&!.\n\
pei Not Not 2: 2!!.\n\
pei Not 7 And Not 3 End: 7!3!&.\n\
pei ( 4 Or False ) End: 4F|.\n\
dxe NOT 4 AND NOT NOT 4 AND (1) OR 4: 4!4!!14|&&.\n\
dxe ((1) AND NOT 5 OR 3): 15!3|&.\n\
pei 4 AND 7 AND 7 AND 2 AND 7 AND NOT 5 OR 3 OR 6 END: 477275!36||&&&&&.\n\
pei ( 4 ) End: 4.\n\
dxe SOR 7 OR 7 OR ( 2 AND 6 ): S7726&||.\n\
dxe NOT 3 OR NOT 5 END: 3!5!|.\n\
dxe NOT ((5) OR FALSE AND 4) AND 3 END: 5F4&|!3&.\n\
pei 4 OR NOT 2 END: 42!|.\n\
pei 1 and (5 or 6): 156|&.\n\
pei 7 OR ( 1 ): 71|.\n\
pei not 3: 3!.\n\
pei 4 And 2: 42&.\n\
pei 1 Or 4: 14|.\n\
pei 2 Or 2: 22|.\n\
pei 1 Or 1 End: 11|.\n\
dxe ( 1 ) And Not Not 6: 16!!&.\n\
dxe AFTER 1 END: >1.\n\
pei not 5: 5!.\n\
pei ( 3 ): 3.\n\
pei 4 AND 1 OR NOT 4: 414!|&.\n\
pei TRUE AND TRUE: TT&.\n\
pei ( 7 ): 7.\n\
pei 6 AND 5: 65&.\n\
pei not not 1 and 1 and not not 1 end: 1!!11!!&&.\n\
dxe ( 7 ) End: 7.\n\
dxe (6 and 6 or 3 or 3) end: 6633||&.\n\
pei Not ( 1 And 7 ) Or 2 And 4: 17&!24&|.\n\
pei False Or ( 6 And 4 And 5 Or 6 ): F6456|&&|.\n\
pei not not 6 end: 6!!.\n\
dxe 2 Or 7 And ( 7 And 2 ): 2772&&|.\n\
pei (4 OR 4 AND 1) END: 441&|.\n\
pei 1 or not not 3: 13!!|.\n\
dxe 4 AND 7: 47&.\n\
dxe not (7) end: 7!.\n\
pei 7 AND 3: 73&.\n\
pei (not not 5) and not 1: 5!!1!&.\n\
dxe NOT 5 OR NOT FALSE AND 3: 5!F!3&|.\n\
dxe (NOT 6): 6!.\n\
dxe after 1: >1.\n\
dxe before 6 end: <6.\n\
dxe SOR NOT NOT FALSE AND 7 AND 4: SF!!74&&.\n\
pei ( 6 ) END: 6.\n\
dxe ( 3 ) End: 3.\n\
pei 4 Or False Or 4: 4F4||.\n\
dxe ( 4 OR ( 6 AND 1 ) AND NOT 5 ) AND 2 AND 5: 461&5!&|25&&.\n\
pei not 7 and (1) or (not true or 5) and false: 7!1T!5|F&|&.\n\
pei 7 AND NOT 3: 73!&.\n\
dxe 5 And 7: 57&.\n\
pei FALSE OR (TRUE): FT|.\n\
dxe SOR 6 AND 5 AND NOT FALSE END: S65F!&&.\n\
pei 3 and 5 and not 7 or (not 4 or false) end: 357!4!F||&&.\n\
pei Not Not Not 1 Or 5 End: 1!!!5|.\n\
pei Not ( ( 6 Or 7 ) ) Or Not 3: 67|!3!|.\n\
dxe BEFORE 1: <1.\n\
pei NOT 7 AND NOT 3: 7!3!&.\n\
pei TRUE OR NOT ( 4 ): T4!|.\n\
pei 2 And 2: 22&.\n\
pei 6 and 6: 66&.\n\
dxe 6 and 1: 61&.\n\
pei 3 OR 4 END: 34|.\n\
pei 2 AND FALSE AND 7: 2F7&&.\n\
pei (7 and 3): 73&.\n\
dxe NOT FALSE END: F!.\n\
pei ( ( 7 AND 2 ) ): 72&.\n\
dxe AFTER 6 END: >6.\n\
pei NOT NOT 1: 1!!.\n\
dxe 6 OR (2) AND (1) OR 3: 6213|&|.\n\
dxe 5 Or 1 End: 51|.\n\
dxe (6 or 2) and 7 and 1: 62|71&&.\n\
dxe 2 and (5): 25&.\n\
dxe SOR ((5) AND 1) END: S51&.\n\
dxe SOR 3 OR ( TRUE AND 5 OR 2 OR 6 OR 1 OR 2 ): S3T52612||||&|.\n\
dxe 2 or (1): 21|.\n\
pei ((not 7)) end: 7!.\n\
dxe not (true) or not 3 or 6: T!3!6||.\n\
dxe NOT FALSE AND 6: F!6&.\n\
pei 7 Or 1 Or 4: 714||.\n\
pei 3 Or 1 And 5: 315&|.\n\
pei ( True ) Or ( 1 And 3 And 1 Or 5 ) End: T1315|&&|.\n\
dxe After 7 End: >7.\n\
dxe ( 2 ): 2.\n\
pei 3 or 3 or not not 1: 331!!||.\n\
pei Not Not Not 7 End: 7!!!.\n\
pei NOT 5 OR 7 AND 3 END: 5!73&|.\n\
pei 5 or 3 and 1 end: 531&|.\n\
pei ( Not 2 ): 2!.\n\
dxe not 2: 2!.\n\
dxe sor 4 or 3: S43|.\n\
dxe 7 and ((false)): 7F&.\n\
dxe TRUE AND ( TRUE AND TRUE OR 5 ) END: TTT5|&&.\n\
dxe Not 7 And Not 5 End: 7!5!&.\n\
pei ((not 5) or (false)): 5!F|.\n\
dxe 2 AND 5 OR 5 OR 5 AND 4: 25554&||&.\n\
pei Not 5 Or 6 Or Not 6 End: 5!66!||.\n\
dxe FALSE AND FALSE END: FF&.\n\
dxe ( ( ( 7 OR FALSE ) ) ) AND 5 OR NOT TRUE AND 1: 7F|5T!1&|&.\n\
pei (3 or (3 or 5) or false) end: 335|F||.\n\
dxe Not Not 4 Or 1 Or ( Not 2 ) End: 4!!12!||.\n\
pei 6 or not true or 3 or 1: 6T!31|||.\n\
dxe not 5 or 2 and not (5 or 1) and 2: 5!251|!2&&|.\n\
dxe (not 1 and 1) and 7 and 5: 1!1&75&&.\n\
dxe 3 Or ( 7 Or 7 ): 377||.\n\
dxe 7 OR NOT NOT 3 OR ( 3 ) OR 6: 73!!36|||.\n\
pei 7 OR 2 END: 72|.\n\
pei 5 AND TRUE OR 5: 5T5|&.\n\
pei (3) or 4: 34|.\n\
pei 6 and 2 and ((7)): 627&&.\n\
dxe ( Not Not 7 Or 1 ) And Not Not 7: 7!!1|7!!&.\n\
dxe not 1 or not 5: 1!5!|.\n\
pei (2 and not 1): 21!&.\n\
pei NOT (4 AND 4 AND 7 OR 6 AND TRUE AND 7): 4476T7&&|&&!.\n\
dxe sor 1 and (3 and 1 and 1 and 4 and 1): S131141&&&&&.\n\
pei 7 OR 5: 75|.\n\
pei 7 and not 2 end: 72!&.\n\
pei not (3): 3!.\n\
pei (1) or not 1 and 3 end: 11!3&|.\n\
pei 3 or not not 1 or false and 4: 31!!F4&||.\n\
dxe ( 1 ) And 5 And Not 3: 153!&&.\n\
pei 2 OR NOT ( 3 OR 3 ): 233|!|.\n\
dxe SOR NOT NOT 3 AND 1 OR NOT 5 AND NOT 7: S3!!15!7!&|&.\n\
dxe NOT FALSE: F!.\n\
pei not (not 4) end: 4!!.\n\
pei NOT TRUE END: T!.\n\
pei not ((7)) or (7 or 3) and 4: 7!73|4&|.\n\
dxe 4 OR 1: 41|.\n\
dxe sor (1 and 7 or 6 or not 2 or not 6): S1762!6!|||&.\n\
pei 4 OR FALSE AND (7 OR 5) END: 4F75|&|.\n\
dxe False And Not Not 2 And 4 Or Not Not 5: F2!!45!!|&&.\n\
pei 7 AND 4: 74&.\n\
pei 2 AND 6: 26&.\n\
dxe 6 and not 6: 66!&.\n\
dxe false and 6 and 1 and (4 or 6): F6146|&&&.\n\
pei (NOT 7 OR 6) AND TRUE AND NOT 4 OR 5: 7!6|T4!5|&&.\n\
pei ( ( Not 2 Or 2 ) And 4 Or 6 ) Or 1 Or 5: 2!2|46|&15||.\n\
pei 4 AND NOT 4 OR 1 END: 44!1|&.\n\
dxe SOR TRUE OR 1: ST1|.\n\
dxe 4 or 1 and false and (6 and false): 41F6F&&&|.\n\
pei 5 AND 7 AND 6 AND 1 AND FALSE: 5761F&&&&.\n\
dxe Sor Not Not 5 End: S5!!.\n\
dxe 5 or 5 end: 55|.\n\
dxe TRUE OR ((2) OR 4): T24||.\n\
pei ( TRUE ): T.\n\
dxe NOT 7: 7!.\n\
dxe NOT 1 OR 4: 1!4|.\n\
pei ((not 4)) end: 4!.\n\
dxe 2 AND (1 OR 3): 213|&.\n\
dxe not 1 and 6 or false: 1!6F|&.\n\
dxe sor not (1): S1!.\n\
pei NOT NOT 7: 7!!.\n\
pei not ((3 and 1 and 7)) and true and 1: 317&&!T1&&.\n\
dxe SOR (NOT 6): S6!.\n\
dxe 3 And 5: 35&.\n\
dxe sor 2 or not not 1 and 1: S21!!1&|.\n\
dxe not 4 or false end: 4!F|.\n\
pei 3 And False: 3F&.\n\
dxe before 4: <4.\n\
dxe Sor 2 Or True: S2T|.\n\
dxe 5 and 5 or 5 and (6) or (4) or 4 end: 555644||&|&.\n\
dxe 5 Or 3 Or False Or 3 And 1: 53F31&|||.\n\
dxe Before 6: <6.\n\
pei ( NOT TRUE ): T!.\n\
pei ( 2 ) Or True End: 2T|.\n\
dxe (2) AND 4 END: 24&.\n\
pei (1 AND TRUE) AND 1: 1T&1&.\n\
pei ( ( NOT 4 ) AND 3 AND ( 4 ) OR 2 ): 4!342|&&.\n\
pei 1 Or ( 6 ): 16|.\n\
dxe Sor Not 4 And 3 End: S4!3&.\n\
dxe (3 AND FALSE OR 5 AND NOT 7 OR 5) END: 3F57!5|&|&.\n\
pei 3 AND 6 OR 7 END: 367|&.\n\
dxe Sor Not 5: S5!.\n\
pei not 3 end: 3!.\n\
dxe 1 or 4 end: 14|.\n\
pei (7 AND 5 OR (7 AND 6 OR 5) AND FALSE): 75765|&F&|&.\n\
dxe ( 4 AND NOT 2 ) AND ( 6 OR 4 OR 4 ) AND 7: 42!&644||7&&.\n\
dxe sor (true) or ((1) or 5 and 5 and false) end: ST155F&&||.\n\
dxe 3 AND ( NOT 6 ) OR TRUE: 36!T|&.\n\
pei 3 AND 5 OR 7 END: 357|&.\n\
pei 4 OR 4 OR ( 7 AND 2 AND FALSE OR 5 OR 3 ): 4472F53||&&||.\n\
dxe SOR NOT 4 OR 4: S4!4|.\n\
pei ((FALSE OR 1) AND (TRUE)): F1|T&.\n\
pei 1 Or 1 And 3: 113&|.\n\
pei FALSE OR FALSE: FF|.\n\
dxe SOR ( 6 AND 6 ): S66&.\n\
pei 6 Or 2 Or 3 Or 7 And ( 7 ) Or 4 End: 623774|&|||.\n\
pei 2 AND 7 END: 27&.\n\
dxe NOT 3 AND 6 OR 5 AND NOT (7): 3!657!&|&.\n\
dxe 1 or (2) and not (6) end: 126!&|.\n\
";
